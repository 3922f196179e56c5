//! Bytes that are not JSON, between a reader and a writer: nothing is written.
use crate::compare::check_eq;
use crate::runs::{PLAIN, THREE_STATEMENTS, result_of};
use sno_rewrite::{DocumentFault, RunFault, status_of};
use std::alloc::Global;
use std::process::Abort;
use std::sync::Wait;
use std::test::Fail;
use std::thread::Threads;

fn check_refused<R: Threads + Wait + Abort + AllocGlobal + Sync>(
    rt: &R,
    document: &[u8],
    expected: DocumentFault,
) {
    let expected = RunFault::Document(expected);
    let (returned, written) = result_of(rt, document, &PLAIN);
    let found = (returned, written.len());
    assert!(rt; found == (Err(expected), 0), "for {document:?}: {found:?}");
    check_eq(rt, "the status", &status_of(&expected), &2);
}

// The document without some of its last bytes, down to no bytes at all.
#[test]
fn no_beginning_of_a_document_is_json(rt: HostRuntime) {
    let document = THREE_STATEMENTS.as_bytes();
    for length in 0..document.len() {
        check_refused(&rt, document.split_at(length).0, DocumentFault::NotJson);
    }
}

// The document with the byte FF instead of each of its bytes in turn.
#[test]
fn no_document_has_the_byte_ff(rt: HostRuntime) -> Result<(), Fail> {
    for place in 0..THREE_STATEMENTS.len() {
        let mut document = Vec::from_slice(rt.alloc(), THREE_STATEMENTS.as_bytes())?;
        if let Some(byte) = document.get_mut(place) {
            *byte = 0xFF;
        }
        check_refused(&rt, &document, DocumentFault::NotJson);
    }
    Ok(())
}

// `depth` arrays, one in the other.
fn nested(alloc: Global, depth: usize) -> Result<Vec<u8>, Fail> {
    let mut document = vec![in alloc; b'['; depth]?;
    document.extend_from_slice(vec![in alloc; b']'; depth]?.as_slice())?;
    Ok(document)
}

// Arrays may nest 127 deep. At that depth they are JSON, and are refused for another reason.
#[test]
fn arrays_nest_at_most_127_deep(rt: HostRuntime) -> Result<(), Fail> {
    check_refused(&rt, &nested(rt.alloc(), 127)?, DocumentFault::Shape);
    check_refused(&rt, &nested(rt.alloc(), 128)?, DocumentFault::NotJson);
    Ok(())
}
