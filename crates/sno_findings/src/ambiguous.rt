//! Repetitions whose rounds can take the same characters in more than one way, by `ARBNO` or by a definition that goes on with
//! itself.

use sno_pattern::{Class, MAX_DEFINITIONS, Pattern};
use std::alloc::{AllocError, Global};

/// The longest alternative that is compared, in characters.
const LONGEST: usize = 32;

/// The most alternatives of a part that are compared, each with each.
const MOST: usize = 64;

/// Which characters one place of an alternative takes.
#[derive(Clone, Copy)]
enum Taken<'p> {
    Every,
    This(u8),
    OneOf(&'p Class),
    NoneOf(&'p Class),
}

impl<'p> Taken<'p> {
    fn has(&self, character: u8) -> bool {
        match self {
            Taken::Every => true,
            Taken::This(byte) => *byte == character,
            Taken::OneOf(set) => set.has(character),
            Taken::NoneOf(set) => !set.has(character),
        }
    }
}

/// Whether some character is taken at both places.
fn overlap(one: &Taken, other: &Taken) -> bool {
    match (one, other) {
        (Taken::This(byte), _) => other.has(*byte),
        (_, Taken::This(byte)) => one.has(*byte),
        _ => (0..128).any(|character: u8| one.has(character) && other.has(character)),
    }
}

/// Whether some characters are taken by both, place by place; they have the same length.
fn overlap_throughout(some: &[Taken], others: &[Taken]) -> bool {
    some.len() == others.len()
        && some
            .iter()
            .zip(others.iter())
            .all(|(one, other)| overlap(one, other))
}

fn add_each<'p>(places: &mut Vec<Taken<'p>>, characters: &[u8]) -> Result<(), AllocError> {
    for byte in characters.iter().take(LONGEST) {
        places.push(Taken::This(*byte))?;
    }
    Ok(())
}

fn add_any<'p>(places: &mut Vec<Taken<'p>>, count: usize) -> Result<(), AllocError> {
    for _ in 0..count.min(LONGEST) {
        places.push(Taken::Every)?;
    }
    Ok(())
}

/// Adds the places of a pattern; returns whether it is made of parts that each take one known number of characters.
fn add_places<'p>(places: &mut Vec<Taken<'p>>, pattern: &'p Pattern) -> Result<bool, AllocError> {
    match pattern {
        Pattern::Lit(text) => add_each(places, text.bytes())?,
        Pattern::Bytes(text) => add_each(places, text.bytes())?,
        Pattern::Len(count) => add_any(places, *count as usize)?,
        Pattern::AnyOf(set) => places.push(Taken::OneOf(set))?,
        Pattern::NoneOf(set) => places.push(Taken::NoneOf(set))?,
        Pattern::Seq(first, second) => {
            return Ok(add_places(places, first)? && add_places(places, second)?);
        }
        Pattern::Cond(part, _) | Pattern::Imm(part, _) => return add_places(places, part),
        _ => return Ok(false),
    }
    Ok(true)
}

/// What a reference refers to, over at most 64 others; any other pattern is itself.
pub(crate) fn referred<'p>(bodies: &[Option<&'p Pattern>], pattern: &'p Pattern) -> &'p Pattern {
    let mut found = pattern;
    for _ in 0..MAX_DEFINITIONS {
        if let Pattern::Ref(number) = found {
            match bodies.get(*number) {
                Some(Some(body)) => found = body,
                _ => return found,
            }
        }
    }
    found
}

/// Adds an alternative with these places, unless they are none or too many, or there are as many alternatives as are compared.
fn add_alternative<'p>(
    alternatives: &mut Vec<Vec<Taken<'p>>>,
    places: Vec<Taken<'p>>,
) -> Result<(), AllocError> {
    if alternatives.len() < MOST && !places.is_empty() && places.len() <= LONGEST {
        alternatives.push(places)?;
    }
    Ok(())
}

/// Adds the places of each alternative that has them, up to the most that are compared.
fn add_alternatives<'p>(
    alloc: Global,
    bodies: &[Option<&'p Pattern>],
    alternatives: &mut Vec<Vec<Taken<'p>>>,
    pattern: &'p Pattern,
) -> Result<(), AllocError> {
    if alternatives.len() >= MOST {
        return Ok(());
    }
    match pattern {
        Pattern::Alt(first, second) => {
            add_alternatives(alloc, bodies, alternatives, first)?;
            add_alternatives(alloc, bodies, alternatives, second)
        }
        Pattern::Cond(part, _) | Pattern::Imm(part, _) => {
            add_alternatives(alloc, bodies, alternatives, part)
        }
        _ => {
            let mut places = Vec::new(alloc);
            if add_places(&mut places, referred(bodies, pattern))? {
                add_alternative(alternatives, places)?;
            }
            Ok(())
        }
    }
}

/// Whether characters that the longer alternative takes are also taken by the shorter one, and then by a third.
fn is_divided(shorter: &[Taken], longer: &[Taken], alternatives: &[Vec<Taken>]) -> bool {
    if shorter.len() > longer.len() {
        return false;
    }
    let (front, rest) = longer.split_at(shorter.len());
    if !overlap_throughout(shorter, front) {
        return false;
    }
    rest.is_empty()
        || alternatives
            .iter()
            .any(|third| overlap_throughout(third, rest))
}

/// Whether an alternative after the first ones takes what this one does, or the other way round.
fn is_taken_again(one: &[Taken], later: &[Vec<Taken>], alternatives: &[Vec<Taken>]) -> bool {
    later.iter().any(|other| {
        is_divided(one, other, alternatives) || is_divided(other, one, alternatives)
    })
}

/// Whether some characters are taken by one of the alternatives, and by others too.
fn are_ambiguous(alternatives: &[Vec<Taken>]) -> bool {
    for place in 0..alternatives.len() {
        let (_, later) = alternatives.split_at(place + 1);
        if is_taken_again(&alternatives[place], later, alternatives) {
            return true;
        }
    }
    false
}

/// Whether the pattern is `ARB`, alone or among parts that each take one known number of characters.
fn has_arb<'p>(alloc: Global, pattern: &'p Pattern) -> Result<bool, AllocError> {
    match pattern {
        Pattern::Arb => Ok(true),
        Pattern::Seq(first, second) => {
            let mut places = Vec::new(alloc);
            if add_places(&mut places, second)? {
                return has_arb(alloc, first);
            }
            let mut before = Vec::new(alloc);
            Ok(add_places(&mut before, first)? && has_arb(alloc, second)?)
        }
        Pattern::Cond(part, _) | Pattern::Imm(part, _) => has_arb(alloc, part),
        _ => Ok(false),
    }
}

/// Whether the pattern is `BAL`, alone or with parts after it that each take one known number of characters.
fn begins_with_bal<'p>(alloc: Global, pattern: &'p Pattern) -> Result<bool, AllocError> {
    match pattern {
        Pattern::Bal => Ok(true),
        Pattern::Seq(first, second) => {
            let mut places = Vec::new(alloc);
            Ok(add_places(&mut places, second)? && begins_with_bal(alloc, first)?)
        }
        Pattern::Cond(part, _) | Pattern::Imm(part, _) => begins_with_bal(alloc, part),
        _ => Ok(false),
    }
}

/// Whether what the pattern takes as one round it also takes as two.
fn is_loose<'p>(alloc: Global, pattern: &'p Pattern) -> Result<bool, AllocError> {
    Ok(has_arb(alloc, pattern)? || begins_with_bal(alloc, pattern)?)
}

/// Whether rounds of this part can take the same characters in more than one way, as `ARB`, `BAL ','` or `LEN(1) | LEN(2)`: each
/// such place doubles the ways that a failing match goes. Only alternatives of a known length are compared: the first 64, up to
/// 32 characters. The part may be a reference, and so may an alternative; `bodies` has the definitions, each if it can be read.
///
/// Refused only if memory runs out.
pub(crate) fn is_ambiguous<'p>(
    alloc: Global,
    bodies: &[Option<&'p Pattern>],
    part: &'p Pattern,
) -> Result<bool, AllocError> {
    let repeated = referred(bodies, part);
    if is_loose(alloc, repeated)? {
        return Ok(true);
    }
    let mut alternatives = Vec::new(alloc);
    add_alternatives(alloc, bodies, &mut alternatives, repeated)?;
    Ok(are_ambiguous(&alternatives))
}

/// Adds the places of what comes before the definition itself; returns whether that is made of parts that each take one known
/// number of characters, with the definition at its end.
fn add_places_before<'p>(
    own: usize,
    places: &mut Vec<Taken<'p>>,
    body: &'p Pattern,
) -> Result<bool, AllocError> {
    match body {
        Pattern::Seq(first, second) => {
            Ok(add_places(places, first)? && add_places_before(own, places, second)?)
        }
        _ => Ok(is_reference_to(own, body)),
    }
}

/// Whether `ARB` comes before the definition itself, among parts that each take one known number of characters.
fn has_arb_before<'p>(alloc: Global, own: usize, body: &'p Pattern) -> Result<bool, AllocError> {
    match body {
        Pattern::Seq(first, second) => {
            let mut after = Vec::new(alloc);
            if add_places_before(own, &mut after, second)? {
                return has_arb(alloc, first);
            }
            let mut before = Vec::new(alloc);
            Ok(add_places(&mut before, first)? && has_arb_before(alloc, own, second)?)
        }
        _ => Ok(false),
    }
}

/// Whether what comes before the definition itself is loose.
fn is_loose_before<'p>(alloc: Global, own: usize, body: &'p Pattern) -> Result<bool, AllocError> {
    match body {
        Pattern::Seq(first, second) => {
            let mut after = Vec::new(alloc);
            if add_places_before(own, &mut after, second)? {
                return is_loose(alloc, first);
            }
            has_arb_before(alloc, own, body)
        }
        _ => Ok(false),
    }
}

/// Adds the alternatives of what comes before the definition itself, wherever its body ends with it. Returns whether one of them
/// is loose.
fn add_rounds<'p>(
    alloc: Global,
    bodies: &[Option<&'p Pattern>],
    own: usize,
    alternatives: &mut Vec<Vec<Taken<'p>>>,
    body: &'p Pattern,
) -> Result<bool, AllocError> {
    match body {
        Pattern::Alt(first, second) => {
            let is_first_loose = add_rounds(alloc, bodies, own, alternatives, first)?;
            Ok(add_rounds(alloc, bodies, own, alternatives, second)? || is_first_loose)
        }
        Pattern::Seq(first, second) if is_reference_to(own, second) => {
            let round = referred(bodies, first);
            add_alternatives(alloc, bodies, alternatives, round)?;
            is_loose(alloc, round)
        }
        Pattern::Seq(_, _) => {
            let mut places = Vec::new(alloc);
            if add_places_before(own, &mut places, body)? {
                add_alternative(alternatives, places)?;
                return Ok(false);
            }
            is_loose_before(alloc, own, body)
        }
        _ => Ok(false),
    }
}

fn is_reference_to(number: usize, pattern: &Pattern) -> bool {
    match pattern {
        Pattern::Ref(other) => *other == number,
        _ => false,
    }
}

/// Whether the definition with this number, which goes on with itself as `ARBNO` does with its rounds, can take the same
/// characters in more than one way, as `R = ('a' | 'aa') *R | ''`. What is compared is as for [`is_ambiguous`].
///
/// Refused only if memory runs out.
pub(crate) fn goes_on_ambiguously<'p>(
    alloc: Global,
    bodies: &[Option<&'p Pattern>],
    own: usize,
    body: &'p Pattern,
) -> Result<bool, AllocError> {
    let mut alternatives = Vec::new(alloc);
    let is_loose = add_rounds(alloc, bodies, own, &mut alternatives, body)?;
    Ok(is_loose || are_ambiguous(&alternatives))
}
