//! Documents with their listings, and with their first faults.
use crate::compare::{check_eq, check_text};
use crate::runs::{PLAIN, THREE_STATEMENTS, check_serial};
use sno_rewrite::{DocumentFault, Name, Options, ReadFault, RunFault, run_serial, status_of};
use std::alloc::Global;
use std::process::Abort;
use std::test::Fail;

/// A document, whether its statements are anchored, its listing, and how many of its statements are refused.
#[derive(Clone, Copy)]
struct Listed(&'static str, bool, &'static str, usize);

static LISTED: [Listed; 18] = [
    Listed(
        r#"{"texts":[{"name":"T","text":""}],"statements":[{"text":"T","pattern":"''","object":"'z'"}]}"#,
        false,
        "texts 1\nT 1 |z|\nentries 1\n0 statement 1 T 0 matched 0 0\n  -> |z|\nrefused 0\n",
        0,
    ),
    Listed("{}", false, "texts 0\nentries 0\nrefused 0\n", 0),
    Listed(
        r#"{"texts":[{"name":"T","text":"a\tb\\"}]}"#,
        false,
        "texts 1\nT 0 |a\\x09b\\x5c|\nentries 0\nrefused 0\n",
        0,
    ),
    Listed(
        r#"{"texts":[{"name":"T","text":"aab"}],"statements":[{"text":"T","pattern":"'b'","object":""}]}"#,
        false,
        "texts 1\nT 1 |aa|\nentries 1\n0 statement 1 T 0 matched 2 3\n  -> |aa|\nrefused 0\n",
        0,
    ),
    Listed(
        r#"{"texts":[{"name":"T","text":"aab"}],"statements":[{"text":"T","pattern":"'b'"}]}"#,
        true,
        "texts 1\nT 0 |aab|\nentries 1\n0 statement 1 T 0 failed\nrefused 0\n",
        0,
    ),
    Listed(
        r#"{"texts":[{"name":"T","text":"aab"}],"statements":[{"text":"T","pattern":"'b'","anchored":false}]}"#,
        true,
        "texts 1\nT 0 |aab|\nentries 1\n0 statement 1 T 0 matched 2 3\nrefused 0\n",
        0,
    ),
    Listed(
        r#"{"texts":[{"name":"T","text":"abc"}],"statements":[{"text":"T","pattern":"@P 'c'","object":"P"}]}"#,
        false,
        "texts 1\nT 1 |ab2|\nentries 1\n0 statement 1 T 0 matched 2 3\n  P = 2\n  -> |ab2|\nrefused 0\n",
        0,
    ),
    Listed(
        THREE_STATEMENTS,
        false,
        "texts 2\nA 1 |v=k|\nB 0 |aaab|\nentries 2\n0 statement 1 A 0 matched 0 3\n  K = |k|\n  V = |v|\n  -> |v=k|\n1 statement 2 B 0 failed\nrefused 1\nstatement 3 no text\n",
        1,
    ),
    Listed(
        r#"{"patterns":[{"name":"D","pattern":"SPAN('0123456789')"},{"name":"N","pattern":"D '.' D"}],"texts":[{"name":"T","text":"v1.25"}],"statements":[{"text":"T","pattern":"N"}]}"#,
        false,
        "texts 1\nT 0 |v1.25|\nentries 1\n0 statement 1 T 0 matched 1 5\nrefused 0\n",
        0,
    ),
    Listed(
        r#"{"texts":[{"name":"T","text":"aXbXc"}],"statements":[{"text":"T","pattern":"'X'","object":"'-'","repeat":1000}]}"#,
        false,
        "texts 1\nT 1 |a-b-c|\nentries 1\n0 statement 1 T 0 repeated 2\n  -> |a-b-c|\nrefused 0\n",
        0,
    ),
    Listed(
        r#"{"texts":[{"name":"T","text":"a1b2"}],"statements":[{"text":"T","pattern":"ANY('12') . D","object":"","repeat":10}]}"#,
        false,
        "texts 1\nT 1 |ab|\nentries 1\n0 statement 1 T 0 repeated 2\n  D = |2|\n  -> |ab|\nrefused 0\n",
        0,
    ),
    Listed(
        r#"{"texts":[{"name":"T","text":"k=v;x=y;"}],"statements":[{"text":"T","pattern":"BREAK('=') . K '=' BREAK(';') . V ';'","object":"V '=' K ';'","all":true}]}"#,
        false,
        "texts 1\nT 1 |v=k;y=x;|\nentries 1\n0 statement 1 T 0 all 2\n  at 0 4\n    K = |k|\n    V = |v|\n  at 4 8\n    K = |x|\n    V = |y|\n  -> |v=k;y=x;|\nrefused 0\n",
        0,
    ),
    Listed(
        r#"{"texts":[{"name":"T","text":"baaac"}],"statements":[{"text":"T","pattern":"SPAN('a') | ''","all":true},{"text":"T","pattern":"'z'","object":"''","all":true},{"text":"T","pattern":"'a'","object":"'&a'","all":true,"repeat":null},{"text":"T","pattern":"'&'","object":"","all":false,"repeat":2}]}"#,
        false,
        "texts 1\nT 2 |baa&ac|\nentries 4\n0 statement 1 T 0 all 3\n  at 0 0\n  at 1 4\n  at 5 5\n1 statement 2 T 0 failed\n2 statement 3 T 0 all 3\n  at 1 2\n  at 2 3\n  at 3 4\n  -> |b&a&a&ac|\n3 statement 4 T 1 repeated 2\n  -> |baa&ac|\nrefused 0\n",
        0,
    ),
    Listed(
        r#"{"texts":[{"name":"T","text":"aab"}],"statements":[{"text":"T","pattern":"'a'","object":"'x'","all":true}]}"#,
        true,
        "texts 1\nT 1 |xxb|\nentries 1\n0 statement 1 T 0 all 2\n  at 0 1\n  at 1 2\n  -> |xxb|\nrefused 0\n",
        0,
    ),
    Listed(
        r#"{"texts":[{"name":"T","text":"b"}],"statements":[{"text":"T","pattern":"'a'","object":"'c'","repeat":2}]}"#,
        false,
        "texts 1\nT 0 |b|\nentries 1\n0 statement 1 T 0 failed\nrefused 0\n",
        0,
    ),
    Listed(
        r#"{"texts":[{"name":"T","text":"aa"}],"statements":[{"text":"T","pattern":"'a'","object":"'b'","repeat":null},{"text":"T","pattern":"'a'","object":"'b'","repeat":1}]}"#,
        false,
        "texts 1\nT 2 |bb|\nentries 2\n0 statement 1 T 0 matched 0 1\n  -> |ba|\n1 statement 2 T 1 repeated 1\n  -> |bb|\nrefused 0\n",
        0,
    ),
    Listed(
        r#"{"texts":[{"name":"T","text":"a"}],"statements":[{"text":"T","pattern":"'a'","repeat":null}]}"#,
        false,
        "texts 1\nT 0 |a|\nentries 1\n0 statement 1 T 0 matched 0 1\nrefused 0\n",
        0,
    ),
    Listed(
        r#"{"texts":[{"name":"T","text":"aaa"}],"statements":[{"text":"T","pattern":"'a'","object":"","repeat":5}]}"#,
        true,
        "texts 1\nT 1 ||\nentries 1\n0 statement 1 T 0 repeated 3\n  -> ||\nrefused 0\n",
        0,
    ),
];

fn check_listed(rt: &(impl Abort + AllocGlobal), row: &Listed) -> Result<(), Fail> {
    let Listed(document, anchor, listing, refused) = *row;
    let options = Options { anchor, ..PLAIN };
    check_serial(rt, document, &options, listing, refused)
}

fn check_all_listed(rt: &(impl Abort + AllocGlobal), rows: &[Listed]) -> Result<(), Fail> {
    for row in rows {
        check_listed(rt, row)?;
    }
    Ok(())
}

#[test]
fn documents_are_listed(rt: HostRuntime) -> Result<(), Fail> {
    check_all_listed(&rt, &LISTED)
}

// Documents, each with the line of its first fault.
static FAULTS: [(&'static str, &'static str); 33] = [
    (
        r#"{"texts":[{"name":"T","text":"abc"}],"statements":[{"text":"T","pattern":"'b'","object":"'X'"}]"#,
        "input: not JSON",
    ),
    ("", "input: not JSON"),
    ("[]", "input: wrong shape"),
    (r#"{"texts":{}}"#, "input: wrong shape"),
    (
        r#"{"statements":[{"text":"T","pattern":"'b'","anchored":null}]}"#,
        "input: wrong shape",
    ),
    (
        r#"{"patterns":[{"name":"9","pattern":"'a'"}]}"#,
        "pattern 1: bad name",
    ),
    (
        r#"{"patterns":[{"name":"P","pattern":"'a'"},{"name":"P","pattern":"'b'"},{"name":"ARB","pattern":"'a'"}]}"#,
        "pattern 3: reserved name",
    ),
    (
        r#"{"patterns":[{"name":"P","pattern":"'a'"},{"name":"P","pattern":"'b'"}]}"#,
        "pattern 2: duplicate",
    ),
    (
        r#"{"patterns":[{"name":"P","pattern":"'a' P"}]}"#,
        "pattern 1: unknown name at 4",
    ),
    (
        r#"{"patterns":[{"name":"E","pattern":"*E 'a' | 'a'"}]}"#,
        "patterns: unguarded E",
    ),
    (
        r#"{"texts":[{"name":"T","text":"a"},{"name":"T","text":"b"}]}"#,
        "text 2: duplicate",
    ),
    (
        r#"{"texts":[{"name":"T","text":"a"},{"name":"T","text":"b"},{"name":"a b","text":"b"}]}"#,
        "text 3: bad name",
    ),
    (
        r#"{"texts":[{"name":"T","text":"\u00e9"}]}"#,
        "text 1: not ASCII",
    ),
    (
        r#"{"statements":[{"text":"","pattern":"LEN( x)"}]}"#,
        "statement 1: bad name",
    ),
    (
        r#"{"statements":[{"text":"T","pattern":"LEN(x)"}]}"#,
        "statement 1: pattern: bad number at 4",
    ),
    (
        r#"{"statements":[{"text":"T","pattern":"'a'","object":"ARB"}]}"#,
        "statement 1: object: reserved name at 0",
    ),
    (
        r#"{"statements":[{"text":"T","pattern":"'a'","object":"'b'","repeat":"3"}]}"#,
        "input: wrong shape",
    ),
    (
        r#"{"statements":[{"text":"T","pattern":"'a'","object":"'b'","repeat":true}]}"#,
        "input: wrong shape",
    ),
    (
        r#"{"statements":[{"text":"T","pattern":"'a'","object":"'b'","repeat":[2]}]}"#,
        "input: wrong shape",
    ),
    (
        r#"{"statements":[{"text":"T","pattern":"'a'","object":"'b'","repeat":0}]}"#,
        "statement 1: bad repeat",
    ),
    (
        r#"{"statements":[{"text":"T","pattern":"'a'"},{"text":"T","pattern":"'a'","object":"'b'","repeat":1001}]}"#,
        "statement 2: bad repeat",
    ),
    (
        r#"{"statements":[{"text":"T","pattern":"'a'","object":"'b'","repeat":-2}]}"#,
        "statement 1: bad repeat",
    ),
    (
        r#"{"statements":[{"text":"T","pattern":"'a'","object":"'b'","repeat":2.0}]}"#,
        "statement 1: bad repeat",
    ),
    (
        r#"{"statements":[{"text":"T","pattern":"'a'","object":"'b'","repeat":1e1}]}"#,
        "statement 1: bad repeat",
    ),
    (
        r#"{"statements":[{"text":"T","pattern":"'a'","object":"'b'","repeat":18446744073709551617}]}"#,
        "statement 1: bad repeat",
    ),
    (
        r#"{"statements":[{"text":"T","pattern":"'a'","repeat":2}]}"#,
        "statement 1: bad repeat",
    ),
    (
        r#"{"statements":[{"text":"T","pattern":"'a'","object":null,"repeat":2}]}"#,
        "statement 1: bad repeat",
    ),
    (
        r#"{"statements":[{"text":"T","pattern":"'a'","all":1}]}"#,
        "input: wrong shape",
    ),
    (
        r#"{"statements":[{"text":"T","pattern":"'a'","all":"true"}]}"#,
        "input: wrong shape",
    ),
    (
        r#"{"statements":[{"text":"T","pattern":"'a'","all":null}]}"#,
        "input: wrong shape",
    ),
    (
        r#"{"statements":[{"text":"T","pattern":"'a'"},{"text":"T","pattern":"'a'","object":"'b'","repeat":2,"all":true}]}"#,
        "statement 2: bad all",
    ),
    (
        r#"{"statements":[{"text":"T","pattern":"'a'","object":"'b'","repeat":0,"all":true}]}"#,
        "statement 1: bad repeat",
    ),
    (
        r#"{"statements":[{"text":"T","pattern":"'a'","object":"ARB","repeat":0}]}"#,
        "statement 1: object: reserved name at 0",
    ),
];

// Why the document is refused.
fn fault_of(alloc: Global, document: &str) -> Result<RunFault, Fail> {
    let returned = run_serial(alloc, document.as_bytes(), &PLAIN);
    Ok(returned.err().ok_or("accepted")?)
}

fn check_faults(rt: &(impl Abort + AllocGlobal), rows: &[(&str, &str)]) -> Result<(), Fail> {
    for (document, line) in rows {
        check_line(rt, &fault_of(rt.alloc(), document)?, line, 2)?;
    }
    Ok(())
}

#[test]
fn first_faults_are_reported(rt: HostRuntime) -> Result<(), Fail> {
    check_faults(&rt, &FAULTS)
}

fn check_line(
    rt: &(impl Abort + AllocGlobal),
    fault: &RunFault,
    line: &str,
    status: u8,
) -> Result<(), Fail> {
    check_eq(rt, line, &status_of(fault), &status);
    let text = format!(in rt.alloc(); "{fault}")?;
    check_text(rt, line, text.as_bytes(), line);
    Ok(())
}

fn check_lines(
    rt: &(impl Abort + AllocGlobal),
    rows: &[(DocumentFault, &str)],
) -> Result<(), Fail> {
    for (fault, line) in rows {
        check_line(rt, &RunFault::from(*fault), line, 2)?;
    }
    Ok(())
}

#[test]
fn each_fault_of_the_input_has_its_line(rt: HostRuntime) -> Result<(), Fail> {
    let rows = [
        (
            DocumentFault::DocumentTooLong,
            "input: longer than 16777216 bytes",
        ),
        (DocumentFault::NotJson, "input: not JSON"),
        (DocumentFault::Shape, "input: wrong shape"),
    ];
    check_lines(&rt, &rows)
}

#[test]
fn each_fault_of_definitions_has_its_line(rt: HostRuntime) -> Result<(), Fail> {
    let name = Name::read(b"E").ok_or("no name")?;
    let rows = [
        (DocumentFault::TooManyPatterns, "patterns: too many"),
        (DocumentFault::PatternName(1), "pattern 1: bad name"),
        (
            DocumentFault::PatternReserved(2),
            "pattern 2: reserved name",
        ),
        (DocumentFault::PatternDuplicate(3), "pattern 3: duplicate"),
        (
            DocumentFault::PatternRead(4, ReadFault::OpenQuote(7)),
            "pattern 4: open quote at 7",
        ),
        (DocumentFault::Unguarded(name), "patterns: unguarded E"),
    ];
    check_lines(&rt, &rows)
}

#[test]
fn each_fault_of_texts_has_its_line(rt: HostRuntime) -> Result<(), Fail> {
    let rows = [
        (DocumentFault::TooManyTexts, "texts: too many"),
        (DocumentFault::TextName(1), "text 1: bad name"),
        (DocumentFault::TextTooLong(2), "text 2: too long"),
        (DocumentFault::TextNonAscii(3), "text 3: not ASCII"),
        (DocumentFault::TextDuplicate(4), "text 4: duplicate"),
    ];
    check_lines(&rt, &rows)
}

#[test]
fn each_fault_of_statements_has_its_line(rt: HostRuntime) -> Result<(), Fail> {
    let rows = [
        (DocumentFault::TooManyStatements, "statements: too many"),
        (DocumentFault::StatementName(1), "statement 1: bad name"),
        (
            DocumentFault::StatementPattern(2, ReadFault::Empty(0)),
            "statement 2: pattern: empty at 0",
        ),
        (
            DocumentFault::StatementObject(3, ReadFault::TooLong(4096)),
            "statement 3: object: too long at 4096",
        ),
        (DocumentFault::StatementRepeat(4), "statement 4: bad repeat"),
        (DocumentFault::StatementAll(5), "statement 5: bad all"),
    ];
    check_lines(&rt, &rows)
}

#[test]
fn each_fault_of_the_run_has_its_line(rt: HostRuntime) -> Result<(), Fail> {
    let rows = [
        (RunFault::Memory, "out of memory"),
        (RunFault::Read, "read failed"),
        (RunFault::Write, "write failed"),
        (RunFault::Stopped, "versions stopped"),
        (RunFault::NoReader, "no reader"),
        (RunFault::Audit, "audit failed"),
        (RunFault::Closing, "closing failed"),
    ];
    for (fault, line) in &rows {
        check_line(&rt, fault, line, 4)?;
    }
    Ok(())
}
