//! Whether each cycle of references takes a character.
ghost use Rattle.std.specs.Prelude.{◌≡◌, ℕ, ◌<◌, ◌++◌, Bool, true, false, List, length, replicate, reverse, slice_index_or, slice_set, IsTrue, IfOk, MatchOption};
ghost use Rattle.std.specs.List.{list_all};
ghost use Rattle.sno_pattern.specs.Tree.{tree_of, trees, refs_below};
ghost use Rattle.sno_pattern.specs.Searching.{takes_by, unguarded_by, AreSound, AreComplete, AreExact, IsUnmarked, AreReferences, IsDeadEnd, IsFreshWay};
ghost use Rattle.sno_pattern.specs.Guard.{Chain, Guarded};
ghost use Rattle.sno_pattern.specs.Admission.{IsCycle, IsFirstCycle};

use crate::Pattern;
use std::alloc::{AllocError, Global};

fn is_marked(marks: &[bool], number: usize) -> bool
    ensures { result ≡ slice_index_or marks.now number false }
{
    match marks.get(number) {
        Some(mark) => *mark,
        None => false,
    }
}

// Whether the pattern takes a character wherever it matches. The marks say which definitions do.
fn takes(marks: &[bool], pattern: &Pattern) -> bool
    ensures { result ≡ takes_by marks.now (tree_of pattern.now) }
{
    match pattern {
        Pattern::Lit(text) => !text.bytes().is_empty(),
        Pattern::Bytes(text) => !text.bytes().is_empty(),
        Pattern::Len(count) => *count != 0,
        Pattern::AnyOf(_) | Pattern::NoneOf(_) | Pattern::Span(_) => true,
        Pattern::Bal | Pattern::Fail | Pattern::Abort => true,
        Pattern::Ref(number) => is_marked(marks, *number),
        Pattern::Seq(left, right) => takes(marks, left) || takes(marks, right),
        Pattern::Alt(left, right) => takes(marks, left) && takes(marks, right),
        Pattern::Cond(child, _) | Pattern::Imm(child, _) => takes(marks, child),
        _ => false,
    }
}

// The first definition that takes by the marks and has no mark.
fn find_unmarked(bodies: &[Pattern], marks: &[bool]) -> Option<usize>
    requires { length marks.now ≡ length bodies.now }
    ensures { MatchOption result (AreComplete (trees bodies.now) marks.now) (λ i. IsUnmarked (trees bodies.now) marks.now i) }
{
    for (number, body) in bodies.iter().enumerate() {
        if !marks[number] && takes(marks, body) {
            return Some(number);
        }
    }
    None
}

// Marks each definition that takes. At the start, only such definitions may be marked.
fn mark(bodies: &[Pattern], marks: &mut [bool])
    requires as_many { length marks.old ≡ length bodies.now }
    requires sound { AreSound (trees bodies.now) marks.old }
    ensures as_many { length marks.new ≡ length bodies.now }
    ensures exact { AreExact (trees bodies.now) marks.new }
{
    while let Some(number) = find_unmarked(bodies, marks) {
        marks[number] = true;
    }
}

// Which definitions take.
fn marks_of(alloc: Global, bodies: &[Pattern]) -> Result<Vec<bool>, AllocError>
    ensures { IfOk result (λ v. (length v.items ≡ length bodies.now) × AreExact (trees bodies.now) v.items) }
{
    let mut marks = vec![in alloc; false; bodies.len()]?;
    mark(bodies, &mut marks);
    Ok(marks)
}

// Appends the unguarded references of the pattern to `found`. Returns whether the pattern takes.
fn find_unguarded(
    marks: &[bool],
    pattern: &Pattern,
    found: &mut Vec<usize>,
) -> Result<bool, AllocError>
    ensures value { IfOk result (λ b. b ≡ takes_by marks.now (tree_of pattern.now)) }
    ensures found { IfOk result (λ b. found.new.items ≡ found.old.items ++ unguarded_by marks.now (tree_of pattern.now)) }
{
    match pattern {
        Pattern::Ref(number) => {
            found.push(*number)?;
            Ok(is_marked(marks, *number))
        }
        Pattern::Seq(left, right) => {
            let first = find_unguarded(marks, left, found)?;
            if first {
                return Ok(true);
            }
            let second = find_unguarded(marks, right, found)?;
            Ok(second)
        }
        Pattern::Alt(left, right) => {
            let first = find_unguarded(marks, left, found)?;
            let second = find_unguarded(marks, right, found)?;
            Ok(first && second)
        }
        Pattern::Arbno(child) => {
            find_unguarded(marks, child, found)?;
            Ok(false)
        }
        Pattern::Cond(child, _) | Pattern::Imm(child, _) => {
            let child = find_unguarded(marks, child, found)?;
            Ok(child)
        }
        _ => Ok(takes(marks, pattern)),
    }
}

// The definitions to which the one at `from` has an unguarded reference.
fn references(
    alloc: Global,
    bodies: &[Pattern],
    marks: &[bool],
    from: usize,
) -> Result<Vec<usize>, AllocError>
    requires inside { from < length bodies.now }
    requires closed { IsTrue (list_all (refs_below (length bodies.now)) (trees bodies.now)) }
    requires exact { AreExact (trees bodies.now) marks.now }
    ensures { IfOk result (λ v. AreReferences (trees bodies.now) from v.items) }
{
    let mut found = Vec::new(alloc);
    find_unguarded(marks, &bodies[from], &mut found)?;
    Ok(found)
}

// A way from a definition to the target, through definitions that weren't seen before. Its last step comes first.
fn way(
    alloc: Global,
    bodies: &[Pattern],
    marks: &[bool],
    from: usize,
    target: usize,
    seen: &mut [bool],
) -> Result<Option<Vec<usize>>, AllocError>
    requires inside { from < length bodies.now }
    requires closed { IsTrue (list_all (refs_below (length bodies.now)) (trees bodies.now)) }
    requires exact { AreExact (trees bodies.now) marks.now }
    requires room { length seen.old ≡ length bodies.now }
    ensures { IfOk result (λ r. MatchOption r (IsDeadEnd (trees bodies.now) from target seen.old seen.new)
        (λ w. IsFreshWay (trees bodies.now) from (reverse w.items) target seen.old)) }
{
    let found = references(alloc, bodies, marks, from)?;
    for next in &found {
        let next = *next;
        if next == target {
            return Ok(Some(Vec::new(alloc)));
        }
        if !seen[next] {
            seen[next] = true;
            let rest = way(alloc, bodies, marks, next, target, seen)?;
            if let Some(mut rest) = rest {
                rest.push(next)?;
                return Ok(Some(rest));
            }
        }
    }
    Ok(None)
}

// `count` marks; only the one at `number` is set.
fn only(alloc: Global, count: usize, number: usize) -> Result<Vec<bool>, AllocError>
    requires { number < count }
    ensures { IfOk result (λ v. v.items ≡ slice_set (replicate count false) number true) }
{
    let mut marks = vec![in alloc; false; count]?;
    marks[number] = true;
    Ok(marks)
}

// A cycle from this definition, if it lies on one.
fn cycle_from(
    alloc: Global,
    bodies: &[Pattern],
    marks: &[bool],
    start: usize,
) -> Result<Option<Vec<usize>>, AllocError>
    requires inside { start < length bodies.now }
    requires closed { IsTrue (list_all (refs_below (length bodies.now)) (trees bodies.now)) }
    requires exact { AreExact (trees bodies.now) marks.now }
    ensures { IfOk result (λ r. MatchOption r (Chain (trees bodies.now) start start → ⊥) (λ l. IsCycle (trees bodies.now) start l.items)) }
{
    let mut seen = only(alloc, bodies.len(), start)?;
    let found = way(alloc, bodies, marks, start, start, &mut seen)?;
    match found {
        None => Ok(None),
        Some(mut cycle) => {
            cycle.push(start)?;
            cycle.reverse();
            Ok(Some(cycle))
        }
    }
}

/// A cycle of unguarded references, from the first definition that lies on one; `None` if the definitions are guarded.
pub(crate) fn first_cycle(
    alloc: Global,
    bodies: &[Pattern],
) -> Result<Option<Vec<usize>>, AllocError>
    requires { IsTrue (list_all (refs_below (length bodies.now)) (trees bodies.now)) }
    ensures { IfOk result (λ r. MatchOption r (Guarded (trees bodies.now)) (λ l. IsFirstCycle (trees bodies.now) l.items)) }
{
    let marks = marks_of(alloc, bodies)?;
    for start in 0..bodies.len() {
        let found = cycle_from(alloc, bodies, &marks, start)?;
        if let Some(cycle) = found {
            return Ok(Some(cycle));
        }
    }
    Ok(None)
}
