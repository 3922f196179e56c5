//! A match can begin with words, or at the places of `POS`.
ghost use Rattle.std.specs.Prelude.{◌≡◌, ◌+◌, ◌<◌, ◌≤◌, ℕ, List, [], ◌∷◌, false, length, IfOk, MatchOption};
ghost use Rattle.sno_machine.specs.Beginnings.{any_begins, any_word, may_begin, IsPast, NoneBegins, NoWord, NoFrontsFrom};
ghost use Rattle.sno_machine.specs.declared.starts.fronts.TheConstants.{MAX_FRONTS};

use crate::starts::fronts::Fronts;
use crate::starts::sought::Sought;
use std::alloc::{AllocError, Global};

/// Fronts that are sought in a text. Where a first character is found, the words are compared with the text.
#[derive(Drop)]
pub struct FrontSearch<'a> {
    pub fronts: Fronts<'a>,
    pub trials: usize,
    // From this cursor on no `POS` matches.
    past: usize,
    // The heads, and the first character of each word.
    heads: Sought<'a>,
    ghost past_all: { (c : ℕ) → past ≤ c → IsPast fronts.places.items c },
    ghost heads_sought: { (x : ℕ) → may_begin heads x ≡ false → any_begins fronts.heads.items x ≡ false },
    ghost words_sought: { (x : ℕ) (l : List ℕ) → may_begin heads x ≡ false → any_word fronts.words.items (x ∷ l) ≡ false },
    ghost none_empty: { any_word fronts.words.items [] ≡ false },
}

impl<'a> FrontSearch<'a> {
    /// The search for these fronts. Refused only if out of memory.
    pub fn of(alloc: Global, fronts: Fronts<'a>) -> Result<FrontSearch<'a>, AllocError>
        requires { length fronts.heads.items + length fronts.words.items + length fronts.places.items ≤ MAX_FRONTS }
        ensures same { IfOk result (λ search. search.fronts ≡ fronts.entry) }
        ensures trials { IfOk result (λ search. search.trials ≡ length fronts.entry.heads.items + length fronts.entry.words.items + length fronts.entry.places.items) }
    {
        let all = fronts.all_heads(alloc)?;
        let heads = Sought::of(&all);
        let past = past_all(&fronts.places);
        let trials = all.len() + fronts.places.len();
        Ok(FrontSearch {
            fronts,
            trials,
            past,
            heads,
        })
    }

    /// The first cursor from `start` on at which a match can begin, if there is one.
    pub fn next(&self, text: &[u8], start: usize) -> Option<usize>
        requires { start ≤ length text.now }
        ensures { MatchOption result (NoFrontsFrom text.now self.now.fronts start (length text.now + 1))
            (λ n. (start ≤ n) × (n ≤ length text.now) × NoFrontsFrom text.now self.now.fronts start n) }
    {
        if start < self.past {
            return Some(start);
        }
        let mut from = start;
        while from < text.len() {
            let (_, rest) = text.split_at(from);
            match self.heads.first(rest) {
                None => return None,
                Some(passed) => {
                    let (_, there) = rest.split_at(passed);
                    if self.begins(there) {
                        return Some(from + passed);
                    }
                    from += passed + 1;
                }
            }
        }
        None
    }

    // Whether the text begins with a word, or with a character with which one of the heads can begin.
    fn begins(&self, text: &[u8]) -> bool
        ensures { result ≡ false → NoneBegins self.now.fronts.heads.items text.now × NoWord self.now.fronts.words.items text.now }
    {
        match text.first() {
            None => true,
            Some(first) => self.can_begin(*first) || self.has_word(text),
        }
    }

    // Whether one of the heads can begin with the character.
    fn can_begin(&self, character: u8) -> bool
        ensures { result ≡ any_begins self.now.fronts.heads.items character }
    {
        self.fronts
            .heads
            .iter()
            .any(|head| head.begins_with(character))
    }

    // Whether the text begins with a word.
    fn has_word(&self, text: &[u8]) -> bool
        ensures { result ≡ any_word self.now.fronts.words.items text.now }
    {
        self.fronts.words.iter().any(|word| word.begins(text))
    }
}

// The cursor after all of these places.
fn past_all(places: &[u32]) -> usize
    ensures { (c : ℕ) → result ≤ c → IsPast places.now c }
{
    let mut past = 0;
    for place in places {
        let later = after(past, *place);
        past = later;
    }
    past
}

// The cursor after the place, or this one if it is later.
fn after(past: usize, place: u32) -> usize
    ensures kept { past ≤ result }
    ensures later { place < result }
{
    let place = place as usize;
    if place < past { past } else { place + 1 }
}
