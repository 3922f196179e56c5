//! Where those primitives end that look at a place, at a length or at the next character.
ghost use Rattle.std.specs.Prelude.{◌≡◌, ◌+◌, ◌-◌, ◌≤◌, length, drop, nat_eq, nat_le, option_to_list, IfSome};
ghost use Rattle.std.specs.List.{starts_with};
ghost use Rattle.sno_pattern.specs.Ends.{literal_ends, len_ends, pos_ends, rpos_ends, tab_ends, rtab_ends, any_ends, notany_ends};

use sno_pattern::Class;

/// Where the literal at the cursor ends; `None` if it isn't at the cursor.
///
/// `c` is at most the text's length. The end is at or past `c`, and within the text. The call takes no memory.
#[inline(always)]
pub fn literal_end(text: &[u8], literal: &[u8], c: usize) -> Option<usize>
    requires { c ≤ length text.now }
    ensures exact { option_to_list result ≡ literal_ends text.now literal.now c }
    ensures past { IfSome result (λ e. (c ≤ e) × (e ≤ length text.now)) }
{
    let (_, rest) = text.split_at(c);
    if rest.starts_with(literal) {
        Some(c + literal.len())
    } else {
        None
    }
}

/// Where `LEN(n)` ends from the cursor: `n` characters on; `None` if fewer are left.
///
/// `c` is at most the text's length. The end is at or past `c`, and within the text. The call takes no memory.
#[inline(always)]
pub fn len_end(text: &[u8], n: usize, c: usize) -> Option<usize>
    requires { c ≤ length text.now }
    ensures exact { option_to_list result ≡ len_ends text.now n c }
    ensures past { IfSome result (λ e. (c ≤ e) × (e ≤ length text.now)) }
{
    if n <= text.len() - c {
        Some(c + n)
    } else {
        None
    }
}

/// Where `POS(n)` ends from the cursor: there, if it is cursor `n`; otherwise `None`.
///
/// The call takes no memory.
#[inline(always)]
pub fn pos_end(n: usize, c: usize) -> Option<usize>
    ensures exact { option_to_list result ≡ pos_ends n c }
    ensures here { IfSome result (λ e. e ≡ c) }
{
    if c == n { Some(c) } else { None }
}

/// Where `RPOS(n)` ends from the cursor: there, if `n` characters are left; otherwise `None`.
///
/// `c` is at most the text's length. The call takes no memory.
#[inline(always)]
pub fn rpos_end(text: &[u8], n: usize, c: usize) -> Option<usize>
    requires { c ≤ length text.now }
    ensures exact { option_to_list result ≡ rpos_ends text.now n c }
    ensures past { IfSome result (λ e. (c ≤ e) × (e ≤ length text.now)) }
{
    if n == text.len() - c { Some(c) } else { None }
}

/// Where `TAB(n)` ends from the cursor: at cursor `n`; `None` if that is before `c` or past the end of the text.
///
/// The call takes no memory.
#[inline(always)]
pub fn tab_end(text: &[u8], n: usize, c: usize) -> Option<usize>
    ensures exact { option_to_list result ≡ tab_ends text.now n c }
    ensures past { IfSome result (λ e. (c ≤ e) × (e ≤ length text.now)) }
{
    if c <= n && n <= text.len() {
        Some(n)
    } else {
        None
    }
}

/// Where `RTAB(n)` ends from the cursor: where `n` characters are left; `None` if that is before `c`, or the text has fewer characters.
///
/// `c` is at most the text's length. The call takes no memory.
#[inline(always)]
pub fn rtab_end(text: &[u8], n: usize, c: usize) -> Option<usize>
    requires { c ≤ length text.now }
    ensures exact { option_to_list result ≡ rtab_ends text.now n c }
    ensures past { IfSome result (λ e. (c ≤ e) × (e ≤ length text.now)) }
{
    if n <= text.len() - c {
        Some(text.len() - n)
    } else {
        None
    }
}

/// Where `ANY(set)` ends from the cursor: one character on, if that character is in the set. `None` if it isn't, or at
/// the end of the text.
///
/// `c` is at most the text's length. The call takes no memory.
#[inline(always)]
pub fn any_end(text: &[u8], set: &Class, c: usize) -> Option<usize>
    requires { c ≤ length text.now }
    ensures exact { option_to_list result ≡ any_ends text.now set.now c }
    ensures past { IfSome result (λ e. (c ≤ e) × (e ≤ length text.now)) }
{
    let (_, rest) = text.split_at(c);
    match rest.split_first() {
        Some((next, _)) if set.has(*next) => Some(c + 1),
        _ => None,
    }
}

/// Where `NOTANY(set)` ends from the cursor: one character on, if that character isn't in the set. `None` if it is, or at
/// the end of the text.
///
/// `c` is at most the text's length. The call takes no memory.
#[inline(always)]
pub fn notany_end(text: &[u8], set: &Class, c: usize) -> Option<usize>
    requires { c ≤ length text.now }
    ensures exact { option_to_list result ≡ notany_ends text.now set.now c }
    ensures past { IfSome result (λ e. (c ≤ e) × (e ≤ length text.now)) }
{
    let (_, rest) = text.split_at(c);
    match rest.split_first() {
        Some((next, _)) if !set.has(*next) => Some(c + 1),
        _ => None,
    }
}
