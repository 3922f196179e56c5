//! Files in memory, edited by rules.

use crate::Memory;
use sno_edit::{
    CutCharacter, Done, EditRules, FileFault, FileStatementFault, Position, RefusedStatement,
    Trials, edit_files,
};
use std::alloc::Global;
use std::io::ErrorKind;
use std::test::Fail;

const RULES: &[u8] = br#"{"statements":[
    {"pattern":"'cat'","object":"'dog'","repeat":1000},
    {"text":"b","pattern":"'bird' RPOS(0)","object":"'fish'"},
    {"text":"d","pattern":"ARBNO(ARBNO('a')) 'b'","object":"''"},
    {"text":"f","pattern":"' ' LEN(1)","object":"'x'"}]}"#;

const TRIALS: Trials = Trials::AtMost(1_000);

/// Files with what they hold before and after, and what is reported of each. The last one isn't there.
static FILES: [(&'static str, &'static str, &'static str); 6] = [
    ("a", "cat, cat", "dog, dog"),
    ("b", "a cat and a bird", "a dog and a fish"),
    ("c", "a bird", "a bird"),
    (
        "d",
        "cat aaaaaaaaaaaaaaaaaaaaaaaa",
        "cat aaaaaaaaaaaaaaaaaaaaaaaa",
    ),
    ("e", "cat\u{e9}", "dog\u{e9}"),
    ("f", "a\ncaf\u{e9} \u{e9}", "a\ncaf\u{e9} \u{e9}"),
];

/// What is reported of the files, and of one that isn't there.
static REPORTS: [Result<Done, FileFault>; 7] = [
    Ok(Done {
        changed: true,
        matches: 2,
    }),
    Ok(Done {
        changed: true,
        matches: 2,
    }),
    Ok(Done {
        changed: false,
        matches: 0,
    }),
    Err(FileFault::Refused(RefusedStatement {
        statement: 3,
        fault: FileStatementFault::TooManyTrials,
    })),
    Ok(Done {
        changed: true,
        matches: 1,
    }),
    Err(FileFault::Cut(CutCharacter {
        statement: 4,
        position: Position {
            place: 8,
            line: 2,
            column: 6,
        },
    })),
    Err(FileFault::Unread(ErrorKind::NotFound)),
];

fn files_in_memory(alloc: Global) -> Result<Memory, Fail> {
    let mut memory = Memory::new(alloc);
    for (path, before, _) in &FILES {
        memory.write(alloc, path.as_bytes(), before.as_bytes())?;
    }
    Ok(memory)
}

fn are_edited(memory: &Memory) -> bool {
    FILES.iter().all(|(path, _, after)| memory.bytes(path.as_bytes()) == Some(after.as_bytes()))
}

#[test]
fn files_hold_what_the_rules_make_of_them(rt: HostRuntime) -> Result<(), Fail> {
    let alloc = rt.alloc();
    let rules = EditRules::read(alloc, RULES, false, TRIALS)
        .ok()
        .ok_or("rules")?;
    let mut memory = files_in_memory(alloc)?;
    let ends = edit_files(
        alloc,
        &mut memory,
        &rules,
        &["a", "b", "c", "d", "e", "f", "g"],
    )?;
    assert!(rt; ends.as_slice() == REPORTS.as_slice());
    assert!(rt; are_edited(&memory));
    Ok(())
}

/// A path that comes again is edited again.
#[test]
fn a_path_that_comes_twice_is_edited_twice(rt: HostRuntime) -> Result<(), Fail> {
    let alloc = rt.alloc();
    let rules = EditRules::read(
        alloc,
        br#"{"statements":[{"pattern":"'a'","object":"'aa'"}]}"#,
        false,
        TRIALS,
    )
    .ok()
    .ok_or("rules")?;
    let mut memory = Memory::new(alloc);
    memory.write(alloc, b"x", b"cat")?;
    let ends = edit_files(alloc, &mut memory, &rules, &["x", "x"])?;
    assert_eq!(rt; ends.len(), 2);
    assert!(rt; memory.bytes(b"x") == Some(b"caaat".as_slice()));
    Ok(())
}

/// A file that isn't UTF-8 is edited as bytes, and `LEN(1)` takes one of them.
#[test]
fn a_file_of_bytes(rt: HostRuntime) -> Result<(), Fail> {
    let alloc = rt.alloc();
    let rules = EditRules::read(
        alloc,
        br#"{"statements":[{"pattern":"'caf' LEN(1)","object":"'tea'"}]}"#,
        false,
        Trials::Usual,
    )
    .ok()
    .ok_or("rules")?;
    let mut memory = Memory::new(alloc);
    memory.write(alloc, b"x", b"\xff\0 caf\xe9\r\n")?;
    let ends = edit_files(alloc, &mut memory, &rules, &["x"])?;
    assert_eq!(rt; ends.len(), 1);
    assert!(rt; memory.bytes(b"x") == Some(b"\xff\0 tea\r\n".as_slice()));
    Ok(())
}
