//! A document that is served: each kind of line with its reply.

use sno_document::{Mode, read_document};
use sno_serve::{Entry, Reason, Refusal, Terms, serve};
use std::process::Abort;
use std::test::Fail;

pub(crate) const DOCUMENT: &[u8] =
    b"{\"texts\":[{\"name\":\"T\",\"text\":\"the cat\"}],\"statements\":[{\"text\":\"T\",\"pattern\":\"'the'\",\"object\":\"'a'\"}]}";

/// Lines, each with its reply.
pub(crate) static LINES: [(&'static str, &'static str); 18] = [
    (
        r#"{"id":1,"text":"T","pattern":"'cat'","object":"'dog'"}"#,
        r#"{"after":"a dog","bindings":[],"end":5,"entry":1,"id":1,"matched":true,"start":2,"statement":2,"text":"T","version":1}"#,
    ),
    (
        r#"{"id":"x","read":"T"}"#,
        r#"{"id":"x","name":"T","text":"a dog","version":2}"#,
    ),
    (
        r#"{"id":2,"text":"U","pattern":"'cat'"}"#,
        r#"{"id":2,"reason":"no text"}"#,
    ),
    (
        r#"{"id":3,"text":"T","pattern":"CAT"}"#,
        r#"{"error":"pattern: unknown name at 0","id":3}"#,
    ),
    (r#"{"id":4"#, r#"{"error":"not JSON"}"#),
    (r#"{"id":5,"since":2}"#, r#"{"entries":[],"id":5}"#),
    (
        r#"{"text":"T","pattern":"'cat'"}"#,
        r#"{"bindings":[],"entry":2,"matched":false,"statement":4,"text":"T","version":2}"#,
    ),
    (r#"{"id":5,"read":"V"}"#, r#"{"id":5,"reason":"no text"}"#),
    (
        r#"{"id":6,"text":"T","pattern":"'dog'","object":"'cow'","if_version":1}"#,
        r#"{"id":6,"reason":"changed","version":2}"#,
    ),
    (
        r#"{"id":6,"text":"T","pattern":"'dog'","object":"'cow'","if_version":2}"#,
        r#"{"after":"a cow","bindings":[],"end":5,"entry":3,"id":6,"matched":true,"start":2,"statement":6,"text":"T","version":2}"#,
    ),
    (
        r#"{"id":7,"text":"T","pattern":"'cow'","trials":0}"#,
        r#"{"error":"bad trials","id":7}"#,
    ),
    (
        r#"{"id":8,"since":0,"limit":3,"text":"U"}"#,
        r#"{"entries":[],"id":8}"#,
    ),
    (
        r#"{"id":8,"since":2,"limit":1,"text":"T"}"#,
        r#"{"entries":[{"bindings":[],"entry":2,"matched":false,"statement":4,"text":"T","version":2}],"id":8}"#,
    ),
    (
        r#"{"id":9,"text":"T","pattern":"'cow'","object":"'dog'","check":true}"#,
        r#"{"after":"a dog","bindings":[],"check":true,"end":5,"entry":4,"findings":[],"id":9,"matched":true,"start":2,"statement":7,"text":"T","version":3}"#,
    ),
    (
        r#"{"id":9,"text":"T","pattern":"SPAN('a-z') . W 'q'","object":"V","check":true}"#,
        r#"{"bindings":[],"check":true,"entry":4,"findings":[{"message":"pattern: a-z in a set is three characters, not a range; write all of them","place":"statement 7"},{"message":"object: no part of the pattern assigns V, so it is the null string; characters are written in quotes, as 'V'","place":"statement 7"}],"id":9,"matched":false,"statement":7,"text":"T","version":3}"#,
    ),
    (
        r#"{"text":"T","pattern":"WHAT . W","object":"WITH W","bind":{"WHAT":"x","WITH":"a x"},"repeat":2,"check":true}"#,
        r#"{"bindings":[],"check":true,"entry":4,"findings":[{"message":"repeat: the object has what the pattern seeks, so each round finds it again; \"all\": true is one pass","place":"statement 7"}],"matched":false,"statement":7,"text":"T","version":3}"#,
    ),
    (
        r#"{"id":10,"text":"U","pattern":"'cow'","check":true}"#,
        r#"{"findings":[],"id":10,"reason":"no text"}"#,
    ),
    (
        r#"{"id":10,"text":"T","pattern":"COW","check":true}"#,
        r#"{"error":"pattern: unknown name at 0","id":10}"#,
    ),
];

/// Compares the numbers of the entries' statements.
fn check_numbers(rt: &impl Abort, entries: &[Entry], expected: &[u32]) {
    assert!(rt; entries.len() == expected.len());
    for (entry, number) in entries.iter().zip(expected) {
        assert!(rt; entry.statement.number() == *number);
    }
}

/// Compares the refused statements: these have no text.
fn check_refused(rt: &impl Abort, refused: &[Refusal], expected: &[u32]) {
    assert!(rt; refused.len() == expected.len());
    for (refusal, number) in refused.iter().zip(expected) {
        assert!(rt; refusal.number == *number);
        assert!(rt; matches!(refusal.reason, Reason::NoText));
    }
}

#[test]
fn lines_get_replies(rt: HostRuntime) -> Result<(), Fail> {
    let alloc = rt.alloc();
    let mode = Mode {
        anchor: false,
        trials: 1_000_000,
    };
    let document = read_document(alloc, DOCUMENT, mode).ok().ok_or("document")?;
    let mut input = Vec::new(alloc);
    let mut wanted = Vec::new(alloc);
    for (line, reply) in &LINES {
        input.extend_from_slice(line.as_bytes())?;
        input.push(b'\n')?;
        wanted.extend_from_slice(reply.as_bytes())?;
        wanted.push(b'\n')?;
    }
    let mut output = Vec::new(alloc);
    let terms = Terms {
        mode,
        seats: 1,
        tries: 100,
        lists: true,
    };
    let served = serve(&rt, alloc, document, terms, input.as_slice(), &mut output)
        .ok()
        .ok_or("served")?;
    assert!(rt; served.fault.is_none());
    check_numbers(&rt, served.book.journal(), &[1, 2, 4, 6]);
    check_refused(&rt, &served.refused, &[3]);
    assert!(rt; output.as_slice() == wanted.as_slice());
    Ok(())
}
