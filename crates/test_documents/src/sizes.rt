//! Documents at their limits, and one past each limit.
use crate::compare::check_eq;
use crate::runs::PLAIN;
use sno_rewrite::{DocumentFault, RunFault, run_serial};
use std::alloc::Global;
use std::process::Abort;
use std::test::Fail;

fn check(rt: &(impl Abort + AllocGlobal), size: usize, document: &str, expected: Option<RunFault>) {
    let returned = run_serial(rt.alloc(), document.as_bytes(), &PLAIN).err();
    check_eq(rt, "a document", &(size, returned), &(size, expected));
}

// The character, `count` times.
fn row_of(alloc: Global, character: &str, count: usize) -> Result<String, Fail> {
    let mut row = String::new(alloc);
    for _ in 0..count {
        row.push_str(character)?;
    }
    Ok(row)
}

// A document with one list, of this many members, each made from its number.
fn list_of<F: Fn(usize) -> Result<String, Fail>>(
    alloc: Global,
    list: &str,
    count: usize,
    member: F,
) -> Result<String, Fail>
    requires { F.IsAlwaysCallable member }
{
    let mut document = format!(in alloc; "{{\"{list}\":[")?;
    for number in 0..count {
        if number > 0 {
            document.push_str(",")?;
        }
        document.push_str(member(number)?.as_str())?;
    }
    document.push_str("]}")?;
    Ok(document)
}

fn definitions(alloc: Global, count: usize) -> Result<String, Fail> {
    list_of(alloc, "patterns", count, |number| {
        Ok(format!(in alloc; r#"{{"name":"P{number}","pattern":"'a'"}}"#)?)
    })
}

#[test]
fn a_document_has_at_most_64_definitions(rt: HostRuntime) -> Result<(), Fail> {
    check(&rt, 64, &definitions(rt.alloc(), 64)?, None);
    let refused = Some(RunFault::Document(DocumentFault::TooManyPatterns));
    check(&rt, 65, &definitions(rt.alloc(), 65)?, refused);
    Ok(())
}

fn texts(alloc: Global, count: usize) -> Result<String, Fail> {
    list_of(alloc, "texts", count, |number| {
        Ok(format!(in alloc; r#"{{"name":"T{number}","text":""}}"#)?)
    })
}

#[test]
fn a_document_has_at_most_1024_texts(rt: HostRuntime) -> Result<(), Fail> {
    check(&rt, 1_024, &texts(rt.alloc(), 1_024)?, None);
    let refused = Some(RunFault::Document(DocumentFault::TooManyTexts));
    check(&rt, 1_025, &texts(rt.alloc(), 1_025)?, refused);
    Ok(())
}

fn long_text(alloc: Global, length: usize) -> Result<String, Fail> {
    let text = row_of(alloc, "a", length)?;
    Ok(format!(in alloc; r#"{{"texts":[{{"name":"T","text":"{text}"}}]}}"#)?)
}

#[test]
fn a_text_has_at_most_65536_characters(rt: HostRuntime) -> Result<(), Fail> {
    check(&rt, 65_536, &long_text(rt.alloc(), 65_536)?, None);
    let refused = Some(RunFault::Document(DocumentFault::TextTooLong(1)));
    check(&rt, 65_537, &long_text(rt.alloc(), 65_537)?, refused);
    Ok(())
}

fn long_definition(alloc: Global, length: usize) -> Result<String, Fail> {
    let name = row_of(alloc, "N", length)?;
    Ok(format!(in alloc; r#"{{"patterns":[{{"name":"{name}","pattern":"'a'"}}]}}"#)?)
}

#[test]
fn the_name_of_a_definition_has_at_most_64_characters(rt: HostRuntime) -> Result<(), Fail> {
    check(&rt, 64, &long_definition(rt.alloc(), 64)?, None);
    let refused = Some(RunFault::Document(DocumentFault::PatternName(1)));
    check(&rt, 65, &long_definition(rt.alloc(), 65)?, refused);
    Ok(())
}

fn text_named(alloc: Global, length: usize) -> Result<String, Fail> {
    let name = row_of(alloc, "~", length)?;
    Ok(format!(in alloc; r#"{{"texts":[{{"name":"{name}","text":""}}]}}"#)?)
}

fn statement_on(alloc: Global, length: usize) -> Result<String, Fail> {
    let name = row_of(alloc, "~", length)?;
    Ok(format!(in alloc; r#"{{"statements":[{{"text":"{name}","pattern":"''"}}]}}"#)?)
}

// A text with a name of this length, and a statement on such a text.
fn check_name(
    rt: &(impl Abort + AllocGlobal),
    length: usize,
    text: Option<RunFault>,
    statement: Option<RunFault>,
) -> Result<(), Fail> {
    check(rt, length, &text_named(rt.alloc(), length)?, text);
    check(rt, length, &statement_on(rt.alloc(), length)?, statement);
    Ok(())
}

#[test]
fn the_name_of_a_text_has_at_most_255_characters(rt: HostRuntime) -> Result<(), Fail> {
    check_name(&rt, 255, None, None)?;
    let text = Some(RunFault::Document(DocumentFault::TextName(1)));
    let statement = Some(RunFault::Document(DocumentFault::StatementName(1)));
    check_name(&rt, 256, text, statement)
}
