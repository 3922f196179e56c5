//! What a match can begin with.
ghost use Rattle.std.specs.Prelude.{◌≡◌, ◌+◌, ◌≤◌, length, IfOk, MatchOption};
ghost use Rattle.std.specs.Option.{option_map};
ghost use Rattle.sno_pattern.specs.Tree.{tree_of};
ghost use Rattle.sno_pattern.specs.Beginnings.{first_literal};
ghost use Rattle.sno_machine.specs.Passing.{AreBeginnings, AreFrontsOf, NoneBegin, cost};
ghost use Rattle.sno_machine.specs.declared.starts.fronts.TheConstants.{MAX_FRONTS};

use crate::starts::front_search::FrontSearch;
use crate::starts::fronts::{Fronts, fronts_of};
use crate::starts::head_tables::HeadTable;
use crate::starts::needles::{Needle, together};
use memchr::memmem::Finder;
use sno_pattern::{Pattern, Rules, a_missing_literal_costs_one_trial};
use std::alloc::{AllocError, Global};

/// What a match can begin with.
#[derive(Drop)]
pub enum Beginnings<'a> {
    /// Anything.
    Any,
    /// This literal alone.
    Literal(Finder<'a>),
    /// One of these heads.
    Few(Needle<'a>),
    /// One of the heads of this table.
    Many(HeadTable),
    /// One of some words, or at a place, or one of some heads.
    Fronts(FrontSearch<'a>),
}

impl<'a> Beginnings<'a> {
    /// What a match of the pattern with the definitions can begin with. Refused only if out of memory.
    pub fn of(
        alloc: Global,
        rules: &'a Rules,
        pattern: &'a Pattern,
    ) -> Result<Beginnings<'a>, AllocError>
        ensures begin { IfOk result (AreBeginnings rules.now.bodies (tree_of pattern.now)) }
        ensures few { IfOk result (λ beginnings. cost beginnings ≤ MAX_FRONTS) }
    {
        // for the proof
        a_missing_literal_costs_one_trial();
        if let Some(literal) = first_literal(pattern) {
            return Ok(Beginnings::Literal(Finder::new(literal)));
        }
        match fronts_of(alloc, rules.bodies(), rules.len(), pattern)? {
            None => Ok(Beginnings::Any),
            Some(fronts) => Ok(Beginnings::one_of(alloc, fronts)?),
        }
    }

    // One of these fronts. Refused only if out of memory.
    fn one_of(alloc: Global, fronts: Fronts<'a>) -> Result<Beginnings<'a>, AllocError>
        requires { length fronts.heads.items + length fronts.words.items + length fronts.places.items ≤ MAX_FRONTS }
        ensures begin { IfOk result (AreFrontsOf fronts.entry) }
        ensures cost { IfOk result (λ b. cost b ≡ length fronts.entry.heads.items + length fronts.entry.words.items + length fronts.entry.places.items) }
    {
        if !fronts.are_heads() {
            let search = FrontSearch::of(alloc, fronts)?;
            return Ok(Beginnings::Fronts(search));
        }
        match together(&fronts.heads) {
            Some(needle) if needle.is_bytes() => Ok(Beginnings::Few(needle)),
            _ => Ok(Beginnings::Many(HeadTable::of(&fronts.heads))),
        }
    }

    /// The first cursor from `start` on at which a match can begin, if there is one.
    pub fn next(&self, text: &[u8], start: usize) -> Option<usize>
        requires { start ≤ length text.now + 1 }
        ensures { MatchOption result (NoneBegin text.now self.now start (length text.now + 1))
            (λ n. (start ≤ n) × (n ≤ length text.now) × NoneBegin text.now self.now start n) }
    {
        if start > text.len() {
            return None;
        }
        let (_, rest) = text.split_at(start);
        let passed = match self {
            Beginnings::Any => return Some(start),
            Beginnings::Fronts(search) => return search.next(text, start),
            Beginnings::Literal(literal) => literal.find(rest),
            Beginnings::Few(needle) => needle.first(rest),
            Beginnings::Many(table) => table.first(rest),
        };
        match passed {
            None => None,
            Some(passed) => Some(start + passed),
        }
    }

    /// Whether a match may begin with the character, by one look: of a literal, at its first character. Of anything,
    /// and of words or places, `false` is returned.
    #[inline(always)]
    pub fn begins_with(&self, character: u8) -> bool {
        match self {
            Beginnings::Any | Beginnings::Fronts(_) => false,
            Beginnings::Literal(literal) => {
                matches!(literal.needle().first(), Some(first) if *first == character)
            }
            Beginnings::Few(needle) => needle.begins_with(character),
            Beginnings::Many(table) => !table.passed[character as usize],
        }
    }

    /// How many trials a start costs at which a match can't begin: at most 4,096 for the beginnings of a pattern.
    pub fn cost(&self) -> usize
        ensures { result ≡ cost self.now }
    {
        match self {
            Beginnings::Any | Beginnings::Literal(_) => 1,
            Beginnings::Few(needle) => needle.count(),
            Beginnings::Many(table) => table.trials,
            Beginnings::Fronts(search) => search.trials,
        }
    }
}

// The literal that is the first part of the pattern, if it is a literal.
fn first_literal(pattern: &Pattern) -> Option<&[u8]>
    ensures { option_map (λ s. s.now) result ≡ first_literal (tree_of pattern.now) }
{
    match pattern {
        Pattern::Lit(literal) => Some(literal.bytes()),
        Pattern::Bytes(literal) => Some(literal.bytes()),
        Pattern::Seq(first, _) => first_literal(first),
        Pattern::Cond(part, _) | Pattern::Imm(part, _) => first_literal(part),
        _ => None,
    }
}
