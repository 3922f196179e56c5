//! Where the primitives `SPAN` and `BREAK` end, which go over many characters.
ghost use Rattle.std.specs.Prelude.{◌≡◌, ◌+◌, ◌≤◌, not, length, drop, nat_eq, nat_lt, option_to_list, take, IfSome};
ghost use Rattle.std.specs.List.{take_while};
ghost use Rattle.sno_pattern.specs.Classes.{has};
ghost use Rattle.sno_pattern.specs.Ends.{span_ends, break_ends};
ghost use Rattle.sno_primitives.specs.Runs.{goes_through};
ghost use Rattle.memchr.specs.Find.{IsFirstByte};

use crate::rows::Rows;
use memchr::{memchr, memchr2, memchr3};
use sno_pattern::Class;

// A set with at most this many members is sought as bytes.
const MOST_BYTES: usize = 3;

// How many characters are looked at one by one, before it pays to make rows of the set.
pub const NEAR: usize = 32;

// How many characters in a row are in the set.
#[inline(always)]
pub fn run_in(rest: &[u8], set: &Class) -> usize
    ensures { result ≡ length (take_while (has set.now) rest.now) }
{
    rest.iter().take_while(|x| set.has(**x)).count()
}

// How many characters in a row are not in the set.
#[inline(always)]
fn run_outside(rest: &[u8], set: &Class) -> usize
    ensures { result ≡ length (take_while (λ x. not (has set.now x)) rest.now) }
{
    rest.iter().take_while(|x| !set.has(**x)).count()
}

// How many characters in a row are not in the set, sought as bytes if the set has few members.
#[inline(always)]
pub fn run_before(rest: &[u8], set: &Class) -> usize
    ensures { result ≡ length (take_while (λ x. not (has set.now x)) rest.now) }
{
    if set.members().len() > MOST_BYTES {
        return run_outside(rest, set);
    }
    match first_by_bytes(rest, set) {
        Some(passed) => passed,
        None => rest.len(),
    }
}

// The index of the first character that is in the set, by the set's table.
#[inline(always)]
fn first_by_table(rest: &[u8], set: &Class) -> Option<usize>
    ensures { IsFirstByte (has set.now) rest.now result }
{
    rest.iter().position(|x| set.has(*x))
}

// The index as `first_by_table` finds it; bytes are sought if the set has one, two or three members. Kept out of line, since a
// search for bytes is long code.
#[inline(never)]
fn first_by_bytes(rest: &[u8], set: &Class) -> Option<usize>
    ensures { IsFirstByte (has set.now) rest.now result }
{
    match set.members() {
        [only] => memchr(*only, rest),
        [first, second] => memchr2(*first, *second, rest),
        [first, second, third] => memchr3(*first, *second, *third, rest),
        _ => first_by_table(rest, set),
    }
}

// The index as `first_by_table` finds it, sixteen characters at once. Kept out of line, since it is for far characters.
#[inline(never)]
fn first_by_rows(rest: &[u8], set: &Class) -> Option<usize>
    ensures { IsFirstByte (has set.now) rest.now result }
{
    let passed = long_run(rest, set, false);
    if passed < rest.len() {
        Some(passed)
    } else {
        None
    }
}

// How many characters the run has. If they are sought by rows, sixteen are looked up at once; to make the rows takes longer than
// to walk along a short run.
#[inline(never)]
pub fn long_run(rest: &[u8], set: &Class, inside: bool) -> usize
    ensures exact { result ≡ length (take_while (goes_through inside set.now) rest.now) }
    ensures few { result ≤ length rest.now }
{
    if !inside && set.members().len() <= MOST_BYTES {
        return run_before(rest, set);
    }
    match Rows::of(set) {
        Some(rows) => rows.run(rest, inside),
        None if inside => run_in(rest, set),
        None => run_outside(rest, set),
    }
}

/// The index of the first character of the text that is in the set; `None` if there is no such character.
///
/// If the set was made of up to three characters, they are sought as bytes. The call takes no memory.
#[inline(always)]
pub fn first_in(rest: &[u8], set: &Class) -> Option<usize>
    ensures { IsFirstByte (has set.now) rest.now result }
{
    if set.members().len() <= MOST_BYTES {
        return first_by_bytes(rest, set);
    }
    match first_by_table(front(rest, NEAR), set) {
        Some(near) => Some(near),
        None if rest.len() > NEAR => first_by_rows(rest, set),
        None => None,
    }
}

/// Where `SPAN(set)` ends from the cursor: past all characters in a row that are in the set. `None` if the next one isn't, or
/// at the end of the text.
///
/// `c` is at most the text's length. The end is at or past `c`, and within the text. The call takes no memory.
#[inline(always)]
pub fn span_end(text: &[u8], set: &Class, c: usize) -> Option<usize>
    requires { c ≤ length text.now }
    ensures exact { option_to_list result ≡ span_ends text.now set.now c }
    ensures past { IfSome result (λ e. (c ≤ e) × (e ≤ length text.now)) }
{
    let (_, rest) = text.split_at(c);
    let run = run_in(rest, set);
    if run != 0 { Some(c + run) } else { None }
}

/// Where `BREAK(set)` ends from the cursor: before the first character from there on that is in the set; `None` if
/// there is no such character.
///
/// `c` is at most the text's length. The end is at or past `c`, and within the text. The call takes no memory.
#[inline(always)]
pub fn break_end(text: &[u8], set: &Class, c: usize) -> Option<usize>
    requires { c ≤ length text.now }
    ensures exact { option_to_list result ≡ break_ends text.now set.now c }
    ensures past { IfSome result (λ e. (c ≤ e) × (e ≤ length text.now)) }
{
    let (_, rest) = text.split_at(c);
    let run = run_before(rest, set);
    if run < rest.len() {
        Some(c + run)
    } else {
        None
    }
}

// The first characters, at most this many.
#[inline(always)]
pub fn front(rest: &[u8], most: usize) -> &[u8]
    ensures { result.now ≡ take most rest.now }
{
    if most < rest.len() {
        let (first, _) = rest.split_at(most);
        first
    } else {
        rest
    }
}
