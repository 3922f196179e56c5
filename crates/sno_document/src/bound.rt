//! One statement in which names represent texts.
ghost use Rattle.std.specs.Prelude.{◌≡◌, ◌<◌, ◌^◌, ◌+◌, map, length, IfOk, IsTrue, OnOk};
ghost use Rattle.std.specs.Option.{option_map};
ghost use Rattle.std.specs.Arc.{arc_value};
ghost use Rattle.sno_pattern.specs.Tree.{tree_of, refs_below};
ghost use Rattle.sno_pattern.specs.NameList.{place_of};
ghost use Rattle.sno_statement.specs.Statement.{IsLimit};
ghost use Rattle.sno_document.specs.Faults.{Gives};
ghost use Rattle.sno_document.specs.DocumentRows.{statement_seen};
ghost use Rattle.sno_document.specs.Bound.{IsBound, bound_text, bound_tree, bound_part, bound_object_row, bound_pattern_row, bound_usual_row, bound_row, bound_statement_in, text_at};

use crate::document_rows::{StatementRow, statement_row};
use crate::last_patterns::read;
use crate::statements::{for_all, has_object, object, repeat, text_name};
use crate::trees::value_in;
use crate::{DocumentFault, Mode};
use json::Scratch;
use sno_pattern::{Name, Names, Pattern, Rules, Text};
use sno_read::{Object, Part};
use sno_statement::Statement;
use std::alloc::{AllocError, Global};
use std::sync::Arc;

/// What names mean in a statement: the first are those of the definitions, and after them comes one for each of the texts.
#[derive(Clone, Copy)]
pub struct Bound<'b> {
    /// The definitions.
    pub rules: &'b Arc<Rules>,
    /// The names of the definitions, in their order, and after them one for each of the texts.
    pub names: &'b Names,
    /// The texts.
    pub texts: &'b [Text],
}

/// The text that a name represents, by its number: the first `defined` names are of definitions.
fn bound_text(defined: usize, texts: &[Text], number: usize) -> Option<&Text>
    ensures { option_map (λ t. t.now) result ≡ bound_text defined texts.now number }
{
    if number < defined {
        return None;
    }
    texts.get(number - defined)
}

/// A copy of a text.
#[tactic(auto, using(sno_pattern::proofs::TextLemmas::text_of_ascii))]
fn copy_of(alloc: Global, text: &Text) -> Result<Text, AllocError>
    ensures { IfOk result (λ t. t ≡ text.now) }
{
    match Text::new(Vec::from_slice(alloc, text.bytes())?) {
        Ok(copy) => Ok(copy),
        Err(_) => unreachable!(),
    }
}

/// Puts a literal in place of each name that represents a text. If memory runs out, some are replaced.
fn bind(
    alloc: Global,
    pattern: &mut Pattern,
    defined: usize,
    texts: &[Text],
) -> Result<(), AllocError>
    ensures { OnOk result (tree_of pattern.new ≡ bound_tree defined texts.now (tree_of pattern.old)) }
{
    match pattern {
        Pattern::Ref(number) => {
            let number = *number;
            if let Some(text) = bound_text(defined, texts, number) {
                *pattern = Pattern::Lit(copy_of(alloc, text)?);
            }
            Ok(())
        }
        Pattern::Arbno(child) => bind(alloc, child, defined, texts),
        Pattern::Cond(child, _) => bind(alloc, child, defined, texts),
        Pattern::Imm(child, _) => bind(alloc, child, defined, texts),
        Pattern::Seq(left, right) => {
            bind(alloc, left, defined, texts)?;
            bind(alloc, right, defined, texts)
        }
        Pattern::Alt(left, right) => {
            bind(alloc, left, defined, texts)?;
            bind(alloc, right, defined, texts)
        }
        _ => Ok(()),
    }
}

/// A part of an object, with the text that its name represents.
fn bound_part(
    alloc: Global,
    names: &Names,
    defined: usize,
    texts: &[Text],
    part: &Part,
) -> Result<Part, AllocError>
    ensures { IfOk result (λ p. p ≡ bound_part names.now defined texts.now part.now) }
{
    match part {
        Part::Quoted(text) => {
            let copy = copy_of(alloc, text)?;
            Ok(Part::Quoted(copy))
        }
        Part::Var(name) => match text_at(names, defined, texts, name) {
            Some(text) => {
                let copy = copy_of(alloc, text)?;
                Ok(Part::Quoted(copy))
            }
            None => Ok(Part::Var(*name)),
        },
    }
}

/// The text that a variable's name represents, if it represents one.
fn text_at<'t>(names: &Names, defined: usize, texts: &'t [Text], name: &Name) -> Option<&'t Text>
    ensures { option_map (λ t. t.now) result ≡ text_at defined texts.now (place_of names.now name.now) }
{
    let place = names.place(name)?;
    bound_text(defined, texts, place)
}

/// The parts of an object, with the texts that their names represent.
fn bound_parts(
    alloc: Global,
    names: &Names,
    defined: usize,
    texts: &[Text],
    parts: &[Part],
) -> Result<Vec<Part>, AllocError>
    ensures { IfOk result (λ v. v.items ≡ map (bound_part names.now defined texts.now) parts.now) }
{
    let mut bound = Vec::new(alloc);
    for part in parts {
        bound.push(bound_part(alloc, names, defined, texts, part)?)?;
    }
    Ok(bound)
}

/// The object of statement number `number`, if it has one, with the texts that its names represent.
fn bound_object(
    alloc: Global,
    bound: Bound<'_>,
    number: usize,
    text: Option<&str>,
) -> Result<Option<Object>, DocumentFault>
    ensures { Gives (λ o. o) result (bound_object_row (arc_value bound.entry.rules.now) bound.entry.names.now bound.entry.texts.now number (option_map (λ s. s.now) text.entry)) }
{
    let Bound {
        rules,
        names,
        texts,
    } = bound;
    let Some(object) = object(alloc, rules.names(), number, text)? else {
        return Ok(None);
    };
    let defined = rules.names().len();
    let parts = bound_parts(alloc, names, defined, texts, object.parts())?;
    Ok(Some(Object::of(parts)))
}

/// The pattern of statement number `number`, with the texts that names represent. Its references are to definitions.
fn bound_pattern(
    alloc: Global,
    bound: Bound<'_>,
    number: usize,
    text: &str,
) -> Result<Pattern, DocumentFault>
    requires bound { IsBound (arc_value bound.rules.now).names bound.names.now bound.texts.now }
    ensures read { Gives tree_of result (bound_pattern_row (arc_value bound.entry.rules.now) bound.entry.names.now bound.entry.texts.now number text.now) }
    ensures covered { IfOk result (λ p. IsTrue (refs_below (length (arc_value bound.entry.rules.now).bodies) (tree_of p))) }
{
    let Bound {
        rules,
        names,
        texts,
    } = bound;
    let mut pattern = read(alloc, false, names, number, text)?;
    let defined = rules.names().len();
    bind(alloc, &mut pattern, defined, texts)?;
    Ok(pattern)
}

/// Statement number `number`, performed once, with the usual limit of trials.
#[tactic(auto, unfolding(crate::specs::Bound::bound_usual_row))]
fn bound_usual(
    alloc: Global,
    bound: Bound<'_>,
    mode: Mode,
    number: usize,
    row: &StatementRow<'_>,
) -> Result<Statement, DocumentFault>
    requires number { number < 2 ^ 32 }
    requires bound { IsBound (arc_value bound.rules.now).names bound.names.now bound.texts.now }
    ensures { Gives (λ s. s) result (bound_usual_row (arc_value bound.entry.rules.now) bound.entry.names.now bound.entry.texts.now mode number (statement_seen row.now)) }
{
    let name = text_name(alloc, number, row.text)?;
    let pattern = bound_pattern(alloc, bound, number, row.pattern)?;
    let object = bound_object(alloc, bound, number, row.object)?;
    let rules = Arc::try_clone(bound.rules)?;
    let anchored = row.anchored.unwrap_or(mode.anchor);
    Ok(Statement::new(number as u32, rules, pattern, object, name, anchored))
}

/// Statement number `number`, by the mode, and repeated or for all matches if it says so.
#[tactic(auto, unfolding(crate::specs::Bound::bound_row))]
fn bound_statement(
    alloc: Global,
    bound: Bound<'_>,
    mode: Mode,
    number: usize,
    row: &StatementRow<'_>,
) -> Result<Statement, DocumentFault>
    requires number { number < 2 ^ 32 }
    requires limit { IsLimit mode.trials }
    requires bound { IsBound (arc_value bound.rules.now).names bound.names.now bound.texts.now }
    ensures { Gives (λ s. s) result (bound_row (arc_value bound.entry.rules.now) bound.entry.names.now bound.entry.texts.now mode number (statement_seen row.now)) }
{
    let usual = bound_usual(alloc, bound, mode, number, row)?;
    let repeat = repeat(number, has_object(&usual), row.repeat)?;
    let all = for_all(number, repeat, row.all)?;
    let limited = usual.limited(mode.trials);
    match repeat {
        Some(rounds) => Ok(limited.repeated(rounds)),
        None if all => Ok(limited.for_all()),
        None => Ok(limited),
    }
}

/// Returns the statement that the JSON of the bytes is, as [`read_statement`](crate::read_statement) does, in which some names
/// represent texts. Such a name is in the pattern as that of a definition is, plain or starred, and is a literal with the text's characters there. In
/// the object it is that literal too. No target of an assignment may have such a name.
///
/// The statement's definitions are those of `bound` alone, and its pattern and its object hold copies of the texts.
///
/// Refused as `read_statement` is, with the same faults in the same order.
pub fn read_bound_statement(
    alloc: Global,
    bound: Bound<'_>,
    mode: Mode,
    number: u32,
    bytes: &[u8],
) -> Result<Statement, DocumentFault>
    requires limit { IsLimit mode.trials }
    requires bound { IsBound (arc_value bound.rules.now).names bound.names.now bound.texts.now }
    ensures { Gives (λ s. s) result (bound_statement_in (arc_value bound.entry.rules.now) bound.entry.names.now bound.entry.texts.now mode number bytes.now) }
{
    let mut scratch = Scratch::new(alloc);
    let value = value_in(alloc, bytes, &mut scratch)?;
    let row = statement_row(&value)?;
    drop(value);
    let statement = bound_statement(alloc, bound, mode, number as usize, &row)?;
    Ok(statement)
}
