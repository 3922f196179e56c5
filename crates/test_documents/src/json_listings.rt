//! Listings as JSON.
use crate::examples::FIRST;
use crate::runs::{PLAIN, THREE_STATEMENTS, check_serial, check_written};
use sno_rewrite::Options;
use std::process::Abort;
use std::test::Fail;

const JSON: Options = Options {
    json: true,
    ..PLAIN
};

// Documents, each with its listing, without the end of the line, and the number of statements that are refused.
static LISTED: [(&'static str, &'static str, usize); 7] = [
    (
        FIRST,
        r#"{"entries":[{"after":"aXc","bindings":[],"end":2,"entry":0,"matched":true,"start":1,"statement":1,"text":"T","version":0}],"refused":[],"texts":[{"name":"T","text":"aXc","version":1}]}"#,
        0,
    ),
    ("{}", r#"{"entries":[],"refused":[],"texts":[]}"#, 0),
    (
        THREE_STATEMENTS,
        r#"{"entries":[{"after":"v=k","bindings":[["K","k"],["V","v"]],"end":3,"entry":0,"matched":true,"start":0,"statement":1,"text":"A","version":0},{"bindings":[],"entry":1,"matched":false,"statement":2,"text":"B","version":0}],"refused":[{"reason":"no text","statement":3}],"texts":[{"name":"A","text":"v=k","version":1},{"name":"B","text":"aaab","version":0}]}"#,
        1,
    ),
    (
        r#"{"texts":[{"name":"T","text":"a\tb\"\\"}],"statements":[{"text":"T","pattern":"@P 'b'"}]}"#,
        r#"{"entries":[{"bindings":[["P",2]],"end":3,"entry":0,"matched":true,"start":2,"statement":1,"text":"T","version":0}],"refused":[],"texts":[{"name":"T","text":"a\tb\"\\","version":0}]}"#,
        0,
    ),
    (
        r#"{"texts":[{"name":"T","text":"aXbXc"}],"statements":[{"text":"T","pattern":"'X'","object":"'-'","repeat":1000}]}"#,
        r#"{"entries":[{"after":"a-b-c","bindings":[],"entry":0,"matched":true,"repeated":2,"statement":1,"text":"T","version":0}],"refused":[],"texts":[{"name":"T","text":"a-b-c","version":1}]}"#,
        0,
    ),
    (
        r#"{"texts":[{"name":"T","text":"a1b2"}],"statements":[{"text":"T","pattern":"LEN(1) $ L ANY('12') . D","all":true},{"text":"T","pattern":"@P '2'","object":"P","all":true}]}"#,
        r#"{"entries":[{"all":[{"bindings":[["L","a"],["D","1"]],"end":2,"start":0},{"bindings":[["L","b"],["D","2"]],"end":4,"start":2}],"entry":0,"matched":true,"statement":1,"text":"T","version":0},{"after":"a1b3","all":[{"bindings":[["P",3]],"end":4,"start":3}],"entry":1,"matched":true,"statement":2,"text":"T","version":0}],"refused":[],"texts":[{"name":"T","text":"a1b3","version":1}]}"#,
        0,
    ),
    (
        r#"{"texts":[{"name":"T","text":"a1b2"}],"statements":[{"text":"T","pattern":"ANY('12') . D","object":"","repeat":10},{"text":"T","pattern":"'z'","object":"","repeat":2}]}"#,
        r#"{"entries":[{"after":"ab","bindings":[["D","2"]],"entry":0,"matched":true,"repeated":2,"statement":1,"text":"T","version":0},{"bindings":[],"entry":1,"matched":false,"statement":2,"text":"T","version":1}],"refused":[],"texts":[{"name":"T","text":"ab","version":1}]}"#,
        0,
    ),
];

fn check(
    rt: &(impl Abort + AllocGlobal),
    document: &str,
    listing: &str,
    refused: usize,
) -> Result<(), Fail> {
    let line = format!(in rt.alloc(); "{listing}\n")?;
    check_serial(rt, document, &JSON, &line, refused)
}

fn check_all(
    rt: &(impl Abort + AllocGlobal),
    rows: &[(&'static str, &'static str, usize)],
) -> Result<(), Fail> {
    for (document, listing, refused) in rows {
        check(rt, document, listing, *refused)?;
    }
    Ok(())
}

#[test]
fn documents_are_listed_as_json(rt: HostRuntime) -> Result<(), Fail> {
    check_all(&rt, &LISTED)
}

// A run writes the same line, and its status says whether a statement was refused.
#[test]
fn runs_write_json(rt: HostRuntime) -> Result<(), Fail> {
    let document =
        r#"{"texts":[{"name":"T","text":"aa"}],"statements":[{"text":"U","pattern":"'a'"}]}"#;
    let listing =
        "{\"entries\":[],\"refused\":[{\"reason\":\"no text\",\"statement\":1}],\"texts\":[{\"name\":\"T\",\"text\":\"aa\",\"version\":0}]}\n";
    check_written(&rt, document, &JSON, listing, 1)
}
