//! A trace as a page of HTML.

use crate::spelling::{put, put_escaped, put_number};
use sno_pattern::Text;
use std::alloc::{AllocError, Global};

/// How many characters of a line and of the pattern a page has, and how many bytes its steps take before one is left out. The text
/// takes at most five bytes for each of its 65,536 characters, or four for one that is escaped.
const MOST_OF_LINE: usize = 200;

const MOST_OF_PATTERN: usize = 5_000;

const MOST_OF_STEPS: usize = 600_000;

const HEAD: &str = "<!DOCTYPE html>
<html lang='en'>
<head>
<meta charset='utf-8'>
<meta name='viewport' content='width=device-width, initial-scale=1'>
<title>Trace of a match</title>
<style>
:root { color-scheme: light dark; --ink: #1b1b1b; --paper: #fff; --mark: #ffe28a; --line: #767676 }
@media (prefers-color-scheme: dark) { :root { --ink: #ececec; --paper: #161616; --mark: #5c4700; --line: #9a9a9a } }
body { margin: 0 auto; max-width: 60rem; padding: 0 1rem 50vh; color: var(--ink); background: var(--paper); font: 1rem/1.5 sans-serif }
.pattern, .text, .steps { font-family: monospace; overflow-wrap: anywhere; white-space: pre-wrap }
.now { position: sticky; top: 0; padding: .5rem 0; background: var(--paper); border-bottom: 1px solid var(--line) }
.now h2, .now p, .pattern, .text { margin: 0 }
.pattern { max-height: 15vh; overflow: auto }
.text { position: relative; max-height: 30vh; overflow: auto; border: 1px solid var(--line) }
.text mark { color: inherit; background: var(--mark); font-weight: bold }
.cursor { display: inline-block; width: 0; height: 1.2em; margin: 0 -1px; border-left: 2px solid var(--ink); vertical-align: text-bottom }
.steps { padding-left: 4.5rem }
.steps li { padding: 0 .3rem 0 calc(var(--depth, 0) * 1ch + .3rem); border-left: 3px solid transparent; scroll-margin-top: 60vh }
.around { margin-left: 3ch; color: var(--line); font-weight: normal }
.steps .start { margin-top: .7rem; font-weight: bold }
.steps .back::before { content: '\\21b3  ' }
.steps .fails::before { content: '\\d7  ' }
.steps [aria-current] { border-left-color: var(--ink); background: var(--mark); font-weight: bold }
</style>
</head>
<body>
<main>
<h1>Trace of a match</h1>
<div class='now'>
<h2>Pattern</h2>
<pre class='pattern'>";

const TEXT: &str = "</pre>
<h2>Text</h2>
<pre class='text' tabindex='0'>";

const STEPS: &str = "</pre>
<p id='step' aria-live='polite'></p>
</div>
<h2>Steps</h2>
<p>Each further end of a leaf is a branch that begins with an arrow. The arrow keys, Home and End go from step to step.</p>
<ol class='steps'>
";

const TAIL: &str = "</ol>
</main>
<script>
const rows = [...document.querySelectorAll('.steps li')];
const lines = rows.map(row => row.textContent);
const text = document.querySelector('.text');
const characters = text.textContent.match(/\\\\x[0-9a-f]{2}|[^]/g) || [];
const CURSOR = / (\\d+) fails$| -> (\\d+)$|^(?:start|null round|matched \\d+|enter \\S+) (\\d+)$/;
let start = 0, at = -1;
const parts = rows.map((row, k) => {
  const found = row.className !== 'set' && lines[k].match(CURSOR);
  const cursor = found ? Number(found[1] || found[2] || found[3]) : null;
  if (row.className === 'start') start = cursor;
  return [start, cursor];
});
parts.forEach((part, k) => { if (part[1] === null) part[1] = k ? parts[k - 1][1] : 0; });
const between = (from, to) => characters.slice(Math.max(from, 0), to).join('');
function made(kind, name, ...within) {
  const element = document.createElement(kind);
  element.className = name;
  element.append(...within);
  return element;
}
rows.forEach((row, k) => {
  const cursor = parts[k][1];
  row.append(made('span', 'around', between(cursor - 8, cursor), made('b', 'cursor'), between(cursor, cursor + 8)));
});
function mark(from, to) {
  const cursor = made('b', 'cursor');
  text.replaceChildren(between(0, from), made('mark', '', between(from, to)), cursor, between(Math.max(from, to), characters.length));
  text.scrollTop = cursor.offsetTop - text.clientHeight / 2;
}
function show(step) {
  if (!rows.length) return;
  if (at >= 0) rows[at].removeAttribute('aria-current');
  at = Math.max(0, Math.min(rows.length - 1, step));
  rows[at].setAttribute('aria-current', 'step');
  rows[at].scrollIntoView({ block: 'nearest' });
  const [from, to] = parts[at];
  mark(from, to);
  document.getElementById('step').textContent = `Step ${at + 1} of ${rows.length}: ${lines[at]}`;
}
document.addEventListener('keydown', event => {
  const steps = { ArrowLeft: at - 1, ArrowRight: at + 1, Home: 0, End: rows.length - 1 };
  if (event.key in steps && !event.altKey && !event.ctrlKey && !event.metaKey) {
    event.preventDefault();
    show(steps[event.key]);
  }
});
show(0);
</script>
</body>
</html>
";

/// Adds characters, with those that mean something in HTML as references.
fn put_html(out: &mut Vec<u8>, characters: &[u8]) -> Result<(), AllocError> {
    for character in characters {
        match *character {
            b'&' => put(out, b"&amp;")?,
            b'<' => put(out, b"&lt;")?,
            b'>' => put(out, b"&gt;")?,
            other => out.push(other)?,
        }
    }
    Ok(())
}

/// Adds the text as a listing has it.
fn put_text(alloc: Global, out: &mut Vec<u8>, characters: &[u8]) -> Result<(), AllocError> {
    let mut shown = Vec::new(alloc);
    put_escaped(&mut shown, characters)?;
    put_html(out, &shown)
}

/// Adds a line. Of a longer one than `most` the middle is left out.
fn put_short(out: &mut Vec<u8>, line: &[u8], most: usize) -> Result<(), AllocError> {
    if line.len() <= most {
        return put_html(out, line);
    }
    let half = most / 2;
    put_html(out, line.get(..half).unwrap_or(&[]))?;
    put(out, b" &hellip; ")?;
    put_html(
        out,
        line.get(line.len().saturating_sub(half)..).unwrap_or(&[]),
    )
}

/// The words that lines begin with, and the classes of their rows.
const CLASSES: [(&[u8], &[u8]); 8] = [
    (b"start ", b"start"),
    (b"try ", b"try"),
    (b"back to ", b"back"),
    (b"set ", b"set"),
    (b". ", b"set"),
    (b"enter ", b"enter"),
    (b"leave ", b"leave"),
    (b"null round ", b"null"),
];

/// What kind of step a line is, as a class of its row; `end` for the lines around the steps.
fn class_of(line: &[u8]) -> &'static [u8] {
    if line.starts_with(b"try ") && line.ends_with(b" fails") {
        return b"fails";
    }
    for (word, class) in CLASSES {
        if line.starts_with(word) {
            return class;
        }
    }
    b"end"
}

/// How many blanks a line begins with.
fn indent_of(line: &[u8]) -> usize {
    line.iter()
        .position(|character| *character != b' ')
        .unwrap_or(0)
}

/// Adds the row of a line of this class, moved to the right by as many blanks.
fn put_row(out: &mut Vec<u8>, class: &[u8], indent: usize, step: &[u8]) -> Result<(), AllocError> {
    put(out, b"<li class='")?;
    put(out, class)?;
    if indent > 0 {
        put(out, b"' style='--depth: ")?;
        put_number(out, indent)?;
    }
    put(out, b"'>")?;
    put_short(out, step, MOST_OF_LINE)?;
    put(out, b"</li>\n")
}

/// Adds the rows of the lines. Steps that come after as many bytes as there may be are left out, and a row says how many.
fn put_rows(out: &mut Vec<u8>, lines: &[u8]) -> Result<(), AllocError> {
    let most = out.len().saturating_add(MOST_OF_STEPS);
    let mut left_out: usize = 0;
    for line in lines.split(|character| *character == b'\n') {
        let indent = indent_of(line);
        let step = line.get(indent..).unwrap_or(line);
        let class = class_of(step);
        if out.len() > most && class != b"end".as_slice() {
            left_out = left_out.saturating_add(1);
        } else if !step.is_empty() {
            put_row(out, class, indent, step)?;
        }
    }
    put_left_out(out, left_out)
}

/// Adds a row that says how many steps are left out, if any are.
fn put_left_out(out: &mut Vec<u8>, left_out: usize) -> Result<(), AllocError> {
    if left_out > 0 {
        put(out, b"<li class='end'>steps that are left out here: ")?;
        put_number(out, left_out)?;
        put(out, b"</li>\n")?;
    }
    Ok(())
}

/// A page of HTML with the pattern, the text, and a row for each of the lines, in order: those of `lines_of`, and what the caller puts
/// before and after them. The arrow keys go from row to row, the characters from the start of the match to the cursor are marked and
/// scrolled to, and each row shows the text around its cursor. The page loads nothing, and is read without its script too.
///
/// The page is shorter than 1,000,000 bytes: of long lines and patterns the middle is left out, and so are the last of too many steps.
///
/// Refused only if out of memory.
pub fn page_of(
    alloc: Global,
    pattern: &[u8],
    text: &Text,
    lines: &[u8],
) -> Result<Vec<u8>, AllocError> {
    let mut out = Vec::new(alloc);
    put(&mut out, HEAD.as_bytes())?;
    put_short(&mut out, pattern, MOST_OF_PATTERN)?;
    put(&mut out, TEXT.as_bytes())?;
    put_text(alloc, &mut out, text.bytes())?;
    put(&mut out, STEPS.as_bytes())?;
    put_rows(&mut out, lines)?;
    put(&mut out, TAIL.as_bytes())?;
    Ok(out)
}
