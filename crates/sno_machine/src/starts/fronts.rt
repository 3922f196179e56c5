//! What a match can begin with: the heads of its first leaves, its first words, and the places of its first `POS`.
ghost use Rattle.std.specs.Prelude.{◌≡◌, ◌+◌, ◌≤◌, ℕ, List, true, [], ◌∷◌, ◌++◌, length, IfOk, IfSome};
ghost use Rattle.sno_pattern.specs.Tree.{tree_of, trees};
ghost use Rattle.sno_machine.specs.Beginnings.{AllCover, AreFronts, Collected};
ghost use Rattle.sno_machine.specs.declared.starts.fronts.TheConstants.{MAX_FRONTS};

use crate::starts::heads::{Head, first_part, head_of};
use crate::starts::words::Word;
use sno_pattern::Pattern;
use std::alloc::{AllocError, Global};

// The most fronts that are kept of a pattern: a start that is passed over costs at most this many trials.
pub const MAX_FRONTS: usize = 4_096;

/// The leaves with which a match can begin. At a cursor past the places, at which no head can begin and no word is, none of them
/// matches.
#[derive(Drop)]
pub struct Fronts<'a> {
    /// One head of each of these leaves that has one.
    pub heads: Vec<Head<'a>>,
    /// The literals of more than one character.
    pub words: Vec<Word<'a>>,
    /// The n of each `POS(n)`.
    pub places: Vec<u32>,
}

/// The fronts of the pattern, at most 4,096: one of each leaf with which a match can begin. The definitions that are known are gone
/// into, at most `depth` one inside the other. `None` if one of these leaves is of none of the three kinds, as `ARB` or the null
/// string, or if there are more than 4,095 alternations and references. Refused only if out of memory.
pub fn fronts_of<'a>(
    alloc: Global,
    known: &'a [Pattern],
    depth: usize,
    pattern: &'a Pattern,
) -> Result<Option<Fronts<'a>>, AllocError>
    ensures fronts { IfOk result (λ found. IfSome found (λ fronts. AreFronts (trees known.now) depth (tree_of pattern.now) fronts.heads.items fronts.words.items fronts.places.items)) }
    ensures few { IfOk result (λ found. IfSome found (λ fronts. length fronts.heads.items + length fronts.words.items + length fronts.places.items ≤ MAX_FRONTS)) }
{
    let mut collector = Collector {
        known,
        heads: Vec::new(alloc),
        words: Vec::new(alloc),
        places: Vec::new(alloc),
        room: MAX_FRONTS - 1,
    };
    let whole = collector.collect(pattern, depth)?;
    if whole {
        return Ok(Some(Fronts {
            heads: collector.heads,
            words: collector.words,
            places: collector.places,
        }));
    }
    Ok(None)
}

impl<'a> Fronts<'a> {
    /// Whether all of them are heads.
    pub fn are_heads(&self) -> bool
        ensures { result ≡ true → (self.now.words.items ≡ []) × (self.now.places.items ≡ []) }
    {
        self.words.is_empty() && self.places.is_empty()
    }

    /// The heads, and the first character of each word. Refused only if out of memory.
    pub fn all_heads(&self, alloc: Global) -> Result<Vec<Head<'a>>, AllocError>
        ensures count { IfOk result (λ all. length all.items ≡ length self.now.heads.items + length self.now.words.items) }
        ensures covers { IfOk result (λ all. AllCover self.now all.items) }
    {
        let mut all = Vec::with_capacity(alloc, self.heads.len())?;
        all.extend_from_slice(&self.heads)?;
        for word in &self.words {
            all.push(Head::Byte(word.first))?;
        }
        Ok(all)
    }
}

// The fronts so far, and how many more alternations and references may be gone into.
#[derive(Drop)]
struct Collector<'a> {
    known: &'a [Pattern],
    heads: Vec<Head<'a>>,
    words: Vec<Word<'a>>,
    places: Vec<u32>,
    room: usize,
}

impl<'a> Collector<'a> {
    // Adds the fronts of the pattern. Returns whether each leaf with which a match can begin has one, and there was room.
    fn collect(&mut self, pattern: &'a Pattern, depth: usize) -> Result<bool, AllocError>
        ensures collected { IfOk result (λ whole. whole ≡ true → Collected (trees self.old.known.now) depth (tree_of pattern.now) self.old.heads.items self.new.heads.items self.old.words.items self.new.words.items self.old.places.items self.new.places.items) }
        ensures few { IfOk result (λ _. length self.new.heads.items + length self.new.words.items + length self.new.places.items + self.new.room ≤ length self.old.heads.items + length self.old.words.items + length self.old.places.items + self.old.room + 1) }
        ensures less { IfOk result (λ _. self.new.room ≤ self.old.room) }
        ensures known { self.new.known ≡ self.old.known }
    {
        let part = first_part(pattern);
        if let Some(head) = head_of(part) {
            return self.put(head);
        }
        match part {
            Pattern::Pos(place) => self.put_place(*place),
            Pattern::Alt(first, second) if self.room > 0 => {
                self.room -= 1;
                let begun = self.collect(first, depth)?;
                if !begun {
                    return Ok(false);
                }
                self.collect(second, depth)
            }
            Pattern::Ref(number) if self.room > 0 && depth > 0 => {
                self.room -= 1;
                match self.known.get(*number) {
                    None => Ok(false),
                    Some(body) => self.collect(body, depth - 1),
                }
            }
            _ => match Word::of(part) {
                None => Ok(false),
                Some(word) => self.put_word(word),
            },
        }
    }

    // Adds a head.
    fn put(&mut self, head: Head<'a>) -> Result<bool, AllocError>
        ensures added { IfOk result (λ _. self.new.heads.items ≡ self.old.heads.items ++ head.entry ∷ []) }
        ensures words { self.new.words.items ≡ self.old.words.items }
        ensures places { self.new.places.items ≡ self.old.places.items }
        ensures room { self.new.room ≡ self.old.room }
        ensures known { self.new.known ≡ self.old.known }
    {
        self.heads.push(head)?;
        Ok(true)
    }

    // Adds a word.
    fn put_word(&mut self, word: Word<'a>) -> Result<bool, AllocError>
        ensures added { IfOk result (λ _. self.new.words.items ≡ self.old.words.items ++ word.entry ∷ []) }
        ensures heads { self.new.heads.items ≡ self.old.heads.items }
        ensures places { self.new.places.items ≡ self.old.places.items }
        ensures room { self.new.room ≡ self.old.room }
        ensures known { self.new.known ≡ self.old.known }
    {
        self.words.push(word)?;
        Ok(true)
    }

    // Adds a place.
    fn put_place(&mut self, place: u32) -> Result<bool, AllocError>
        ensures added { IfOk result (λ _. self.new.places.items ≡ self.old.places.items ++ place ∷ []) }
        ensures heads { self.new.heads.items ≡ self.old.heads.items }
        ensures words { self.new.words.items ≡ self.old.words.items }
        ensures room { self.new.room ≡ self.old.room }
        ensures known { self.new.known ≡ self.old.known }
    {
        self.places.push(place)?;
        Ok(true)
    }
}
