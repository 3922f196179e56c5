//! The examples of `examples/`: each document with its listing, character by character as in its files. What is changed
//! here must be changed there; `examples/check` finds the differences.
ghost use Rattle.sno_rewrite.specs.Runs.{AreInLimits};

use crate::compare::{check_eq, check_part};
use crate::runs::{PLAIN, check_written, written};
use sno_rewrite::Options;
use std::process::Abort;
use std::str;
use std::sync::Wait;
use std::test::Fail;
use std::thread::Threads;

const JSON_ANCHORED: Options = Options {
    anchor: true,
    json: true,
    ..PLAIN
};

const THREE_WORKERS: Options = Options {
    workers: Some(3),
    ..PLAIN
};

/// An example: its document, its listing, and the status that its run ends with.
#[derive(Clone, Copy)]
struct Example(&'static str, &'static str, u8);

const DATES: &str = r#"{
  "patterns": [
    {"name": "DIGITS", "pattern": "SPAN('0123456789')"},
    {"name": "DATE", "pattern": "DIGITS . YEAR '-' DIGITS . MONTH '-' DIGITS . DAY"}
  ],
  "texts": [
    {"name": "log", "text": "2026-11-22 disk full\n"},
    {"name": "mail", "text": "sent on 2026-11-22\n"}
  ],
  "statements": [
    {"text": "log", "pattern": "@AT DATE", "object": "DAY '.' MONTH '.' YEAR"},
    {"text": "mail", "pattern": "@AT DATE", "object": "DAY '.' MONTH '.' YEAR"},
    {"text": "mail", "anchored": false, "pattern": "@AT DATE", "object": "DAY '.' MONTH '.' YEAR"}
  ]
}
"#;

const DATES_LISTING: &str =
    r#"{"entries":[{"after":"22.11.2026 disk full\n","bindings":[["AT",0],["YEAR","2026"],["MONTH","11"],["DAY","22"]],"end":10,"entry":0,"matched":true,"start":0,"statement":1,"text":"log","version":0},{"bindings":[["AT",0]],"entry":1,"matched":false,"statement":2,"text":"mail","version":0},{"after":"sent on 22.11.2026\n","bindings":[["AT",8],["YEAR","2026"],["MONTH","11"],["DAY","22"]],"end":18,"entry":2,"matched":true,"start":8,"statement":3,"text":"mail","version":0}],"refused":[],"texts":[{"name":"log","text":"22.11.2026 disk full\n","version":1},{"name":"mail","text":"sent on 22.11.2026\n","version":1}]}
"#;

const EXPRESSION: &str = r#"{
  "patterns": [
    {"name": "NUMBER", "pattern": "SPAN('0123456789')"},
    {"name": "VARIABLE", "pattern": "SPAN('abcdefghijklmnopqrstuvwxyz')"},
    {"name": "FACTOR", "pattern": "NUMBER | VARIABLE | '(' *SUM ')'"},
    {"name": "TERM", "pattern": "FACTOR ANY('*/') *TERM | FACTOR"},
    {"name": "SUM", "pattern": "TERM ANY('+-') *SUM | TERM"},
    {"name": "ASSIGNMENT", "pattern": "VARIABLE ' = ' SUM ';\n'"}
  ],
  "texts": [
    {"name": "code", "text": "x = (a+2*(b-1))*c-d;\n"},
    {"name": "broken", "text": "y = (a+;\n"}
  ],
  "statements": [
    {"text": "code", "anchored": true,
     "pattern": "BREAK('=') . LEFT '= ' TERM . T",
     "object": "'t = ' T ';\n' LEFT '= t'"},
    {"text": "code", "anchored": true, "pattern": "ARBNO(ASSIGNMENT) RPOS(0)"},
    {"text": "broken", "anchored": true, "pattern": "ARBNO(ASSIGNMENT) RPOS(0)"}
  ]
}
"#;

const EXPRESSION_LISTING: &str = r#"texts 2
code 1 |t = (a+2*(b-1))*c;\x0ax = t-d;\x0a|
broken 0 |y = (a+;\x0a|
entries 3
0 statement 1 code 0 matched 0 17
  LEFT = |x |
  T = |(a+2*(b-1))*c|
  -> |t = (a+2*(b-1))*c;\x0ax = t-d;\x0a|
1 statement 2 code 1 matched 0 28
2 statement 3 broken 0 failed
refused 0
"#;

pub(crate) const FIRST: &str =
    r#"{"texts":[{"name":"T","text":"abc"}],"statements":[{"text":"T","pattern":"'b'","object":"'X'"}]}
"#;

pub(crate) const FIRST_LISTING: &str = r#"texts 1
T 1 |aXc|
entries 1
0 statement 1 T 0 matched 1 2
  -> |aXc|
refused 0
"#;

const FIRST_ARGUMENT: &str = r#"{
  "texts": [
    {"name": "line", "text": "write(open(path, \"w\"), join(names, \", \"));"},
    {"name": "end", "text": "close(file);"}
  ],
  "statements": [
    {"text": "line",
     "pattern": "BREAK('(') . NAME '(' BAL . FIRST ',' (SPAN(' ') | '')",
     "object": "FIRST '.' NAME '('"},
    {"text": "line",
     "pattern": "BREAK('(') . NAME '(' BAL . FIRST ',' (SPAN(' ') | '')",
     "object": "FIRST '.' NAME '('"},
    {"text": "end",
     "pattern": "BREAK('(') . NAME '(' BAL . FIRST ',' (SPAN(' ') | '')",
     "object": "FIRST '.' NAME '('"}
  ]
}
"#;

const FIRST_ARGUMENT_LISTING: &str = r#"texts 2
line 2 |path.open("w").write(join(names, ", "));|
end 0 |close(file);|
entries 3
0 statement 1 line 0 matched 0 23
  NAME = |write|
  FIRST = |open(path, "w")|
  -> |open(path, "w").write(join(names, ", "));|
1 statement 2 line 1 matched 0 11
  NAME = |open|
  FIRST = |path|
  -> |path.open("w").write(join(names, ", "));|
2 statement 3 end 0 failed
refused 0
"#;

const GUARDED: &str = r#"{
  "patterns": [
    {"name": "MARKED", "pattern": "ARB '# do not edit' ABORT"}
  ],
  "texts": [
    {"name": "server", "text": "limit=10\ndebug=on\n"},
    {"name": "kept", "text": "debug=on\n# do not edit\n"},
    {"name": "limits", "text": "limit=20\nlimit=10\n"}
  ],
  "statements": [
    {"text": "server", "anchored": true,
     "pattern": "MARKED | ARB . BEFORE 'debug=on'",
     "object": "BEFORE 'debug=off'"},
    {"text": "kept", "anchored": true,
     "pattern": "MARKED | ARB . BEFORE 'debug=on'",
     "object": "BEFORE 'debug=off'"},
    {"text": "server", "pattern": "'limit=' FENCE '10'", "object": "'limit=15'"},
    {"text": "limits", "pattern": "'limit=' FENCE '10'", "object": "'limit=15'"},
    {"text": "limits", "pattern": "'limit=' '10'"}
  ]
}
"#;

const GUARDED_LISTING: &str = r#"texts 3
server 2 |limit=15\x0adebug=off\x0a|
kept 0 |debug=on\x0a# do not edit\x0a|
limits 0 |limit=20\x0alimit=10\x0a|
entries 5
0 statement 1 server 0 matched 0 17
  BEFORE = |limit=10\x0a|
  -> |limit=10\x0adebug=off\x0a|
1 statement 2 kept 0 failed
2 statement 3 server 1 matched 0 8
  -> |limit=15\x0adebug=off\x0a|
3 statement 4 limits 0 failed
4 statement 5 limits 0 matched 9 17
refused 0
"#;

const LIMITED: &str = r#"{
  "texts": [
    {"name": "line", "text": "aaaaaaaaaaaaaaaaaaaaaaaa"}
  ],
  "statements": [
    {"text": "line", "anchored": true, "pattern": "ARBNO(ARBNO('a')) 'b'"},
    {"text": "line", "anchored": true, "pattern": "ARBNO('a') 'b'"}
  ]
}
"#;

const LIMITED_LISTING: &str = r#"texts 1
line 0 |aaaaaaaaaaaaaaaaaaaaaaaa|
entries 1
0 statement 2 line 0 failed
refused 1
statement 1 too many trials
"#;

const REFUSED: &str = r#"{
  "patterns": [
    {"name": "DIGITS", "pattern": "SPAN('0123456789')"}
  ],
  "texts": [
    {"name": "readme", "text": "Version 1.2\n"}
  ],
  "statements": [
    {"text": "readme", "pattern": "'Version ' DIGITS . MAJOR '.' DIGITS", "object": "'Version ' MAJOR '.3'"},
    {"text": "changes", "pattern": "POS(0)", "object": "'1.3\n'"},
    {"text": "readme", "pattern": "'1.3'"}
  ]
}
"#;

const REFUSED_LISTING: &str = r#"texts 1
readme 1 |Version 1.3\x0a|
entries 2
0 statement 1 readme 0 matched 0 11
  MAJOR = |1|
  -> |Version 1.3\x0a|
1 statement 3 readme 1 matched 8 11
refused 1
statement 2 no text
"#;

const RENAME: &str = r#"{
  "patterns": [
    {"name": "LEFT",
     "pattern": "POS(0) | NOTANY('ABCDEFGHIJKLMNOPQRSTUVWXYZabcdefghijklmnopqrstuvwxyz0123456789_')"},
    {"name": "RIGHT",
     "pattern": "RPOS(0) | NOTANY('ABCDEFGHIJKLMNOPQRSTUVWXYZabcdefghijklmnopqrstuvwxyz0123456789_')"}
  ],
  "texts": [
    {"name": "code", "text": "count = count + counter;\nreturn discount * count"}
  ],
  "statements": [
    {"text": "code", "pattern": "LEFT . L 'count' RIGHT . R", "object": "L 'total' R", "repeat": 1000}
  ]
}
"#;

const RENAME_LISTING: &str = r#"texts 1
code 1 |total = total + counter;\x0areturn discount * total|
entries 1
0 statement 1 code 0 repeated 3
  L = | |
  R = ||
  -> |total = total + counter;\x0areturn discount * total|
refused 0
"#;

const TEMPLATE: &str = r#"{
  "patterns": [
    {"name": "OPEN", "pattern": "'{{' (SPAN(' ') | '')"},
    {"name": "CLOSE", "pattern": "(SPAN(' ') | '') '}}'"}
  ],
  "texts": [
    {"name": "letter",
     "text": "Dear {{name}},\nthank you for ordering {{ title }}.\nIt comes by {{carrier}}. Have a good day, {{name}}!\n"}
  ],
  "statements": [
    {"text": "letter", "pattern": "OPEN 'name' CLOSE", "object": "'Ada'", "repeat": 1000},
    {"text": "letter", "pattern": "OPEN 'title' CLOSE", "object": "'The Moonstone'"},
    {"text": "letter", "pattern": "OPEN BREAK(' }') . HOLE"}
  ]
}
"#;

const TEMPLATE_LISTING: &str = r#"texts 1
letter 2 |Dear Ada,\x0athank you for ordering The Moonstone.\x0aIt comes by {{carrier}}. Have a good day, Ada!\x0a|
entries 3
0 statement 1 letter 0 repeated 2
  -> |Dear Ada,\x0athank you for ordering {{ title }}.\x0aIt comes by {{carrier}}. Have a good day, Ada!\x0a|
1 statement 2 letter 1 matched 33 44
  -> |Dear Ada,\x0athank you for ordering The Moonstone.\x0aIt comes by {{carrier}}. Have a good day, Ada!\x0a|
2 statement 3 letter 2 matched 60 69
  HOLE = |carrier|
refused 0
"#;

const TOOLS: &str = r#"{
  "texts": [
    {"name": "guide", "text": "Copyright 2025\nThe colour of links: http://example.org/\n"},
    {"name": "notes", "text": "2025: chose a colour, see http://example.com/notes\n"}
  ],
  "statements": [
    {"text": "guide", "pattern": "'2025'", "object": "'2026'"},
    {"text": "guide", "pattern": "'colour'", "object": "'color'"},
    {"text": "guide", "pattern": "'http://' BREAK('/') . HOST", "object": "'https://' HOST"},
    {"text": "notes", "pattern": "'2025'", "object": "'2026'"},
    {"text": "notes", "pattern": "'colour'", "object": "'color'"},
    {"text": "notes", "pattern": "'http://' BREAK('/') . HOST", "object": "'https://' HOST"}
  ]
}
"#;

const TOOLS_LISTING: &str = r#"texts 2
guide 3 |Copyright 2026\x0aThe color of links: https://example.org/\x0a|
notes 3 |2026: chose a color, see https://example.com/notes\x0a|
entries 6
0 statement 1 guide 0 matched 10 14
  -> |Copyright 2026\x0aThe colour of links: http://example.org/\x0a|
1 statement 2 guide 1 matched 19 25
  -> |Copyright 2026\x0aThe color of links: http://example.org/\x0a|
2 statement 3 guide 2 matched 35 53
  HOST = |example.org|
  -> |Copyright 2026\x0aThe color of links: https://example.org/\x0a|
3 statement 4 notes 0 matched 0 4
  -> |2026: chose a colour, see http://example.com/notes\x0a|
4 statement 5 notes 1 matched 14 20
  -> |2026: chose a color, see http://example.com/notes\x0a|
5 statement 6 notes 2 matched 25 43
  HOST = |example.com|
  -> |2026: chose a color, see https://example.com/notes\x0a|
refused 0
"#;

const TURN_AROUND: &str = r#"{
  "patterns": [
    {"name": "LINE", "pattern": "BREAK('\n') '\n'"},
    {"name": "PAIR", "pattern": "BREAK('=\n') . KEY '=' BREAK('\n') . VALUE"}
  ],
  "texts": [
    {"name": "settings", "text": "host=example.org\nport=8080\nuser=ada\n"}
  ],
  "statements": [
    {"text": "settings", "anchored": true, "pattern": "PAIR", "object": "VALUE '=' KEY"},
    {"text": "settings", "anchored": true, "pattern": "LINE . DONE PAIR", "object": "DONE VALUE '=' KEY"},
    {"text": "settings", "anchored": true, "pattern": "(LINE LINE) . DONE PAIR", "object": "DONE VALUE '=' KEY"},
    {"text": "settings", "anchored": true, "pattern": "(LINE LINE LINE) . DONE PAIR", "object": "DONE VALUE '=' KEY"}
  ]
}
"#;

const TURN_AROUND_LISTING: &str = r#"texts 1
settings 3 |example.org=host\x0a8080=port\x0aada=user\x0a|
entries 4
0 statement 1 settings 0 matched 0 16
  KEY = |host|
  VALUE = |example.org|
  -> |example.org=host\x0aport=8080\x0auser=ada\x0a|
1 statement 2 settings 1 matched 0 26
  DONE = |example.org=host\x0a|
  KEY = |port|
  VALUE = |8080|
  -> |example.org=host\x0a8080=port\x0auser=ada\x0a|
2 statement 3 settings 2 matched 0 35
  DONE = |example.org=host\x0a8080=port\x0a|
  KEY = |user|
  VALUE = |ada|
  -> |example.org=host\x0a8080=port\x0aada=user\x0a|
3 statement 4 settings 3 failed
refused 0
"#;

// The examples that are run without options, and `tools` without its workers.
static EXAMPLES: [Example; 10] = [
    Example(EXPRESSION, EXPRESSION_LISTING, 0),
    Example(FIRST, FIRST_LISTING, 0),
    Example(FIRST_ARGUMENT, FIRST_ARGUMENT_LISTING, 0),
    Example(GUARDED, GUARDED_LISTING, 0),
    Example(LIMITED, LIMITED_LISTING, 1),
    Example(REFUSED, REFUSED_LISTING, 1),
    Example(RENAME, RENAME_LISTING, 0),
    Example(TEMPLATE, TEMPLATE_LISTING, 0),
    Example(TOOLS, TOOLS_LISTING, 0),
    Example(TURN_AROUND, TURN_AROUND_LISTING, 0),
];

fn check<R: Threads + Wait + Abort + AllocGlobal + Sync>(
    rt: &R,
    example: &Example,
    options: &Options,
) -> Result<(), Fail>
    requires { AreInLimits options.now }
{
    let Example(document, listing, status) = *example;
    check_written(rt, document, options, listing, status)
}

fn check_all<R: Threads + Wait + Abort + AllocGlobal + Sync>(
    rt: &R,
    examples: &[Example],
) -> Result<(), Fail> {
    for example in examples {
        check(rt, example, &PLAIN)?;
    }
    Ok(())
}

#[test]
fn examples_are_listed(rt: HostRuntime) -> Result<(), Fail> {
    check_all(&rt, &EXAMPLES)
}

#[test]
fn an_example_is_listed_as_json(rt: HostRuntime) -> Result<(), Fail> {
    check(&rt, &Example(DATES, DATES_LISTING, 0), &JSON_ANCHORED)
}

// With workers the entries may come in another order. But the texts are the same at the end, there are as many entries,
// and each statement has one.
#[test]
fn workers_settle_an_example(rt: HostRuntime) -> Result<(), Fail> {
    let (bytes, status) = written(&rt, TOOLS, &THREE_WORKERS)?;
    check_eq(&rt, "tools", &status, &0);
    check_settled(&rt, str::from_utf8(&bytes)?)
}

// What is listed before the entries.
fn texts_in(listing: &str) -> Result<&str, Fail> {
    let (texts, _) = listing.split_once("0 statement ").ok_or("no entry")?;
    Ok(texts)
}

// How the line of each entry begins, without the entry's number.
static ENTRIES: [&'static str; 6] = [
    " statement 1 guide ",
    " statement 2 guide ",
    " statement 3 guide ",
    " statement 4 notes ",
    " statement 5 notes ",
    " statement 6 notes ",
];

fn check_texts(rt: &impl Abort, listing: &str) -> Result<(), Fail> {
    let expected = texts_in(TOOLS_LISTING)?;
    check_eq(rt, "tools", &texts_in(listing)?, &expected);
    Ok(())
}

fn check_entries(rt: &impl Abort, listing: &str) {
    for entry in &ENTRIES {
        check_part(rt, "tools", listing, entry);
    }
}

fn check_settled(rt: &impl Abort, listing: &str) -> Result<(), Fail> {
    check_entries(rt, listing);
    check_eq(rt, listing, &listing.ends_with("\nrefused 0\n"), &true);
    check_texts(rt, listing)
}
