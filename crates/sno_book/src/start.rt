//! What a book starts with.
ghost use Rattle.std.specs.Prelude.{◌≡◌, ◌≤◌, ◌++◌, ◌∷◌, [], false, true, length, not, IfOk, IfErr, OnOk, None};
ghost use Rattle.std.specs.List.{list_any};
ghost use Rattle.sno_pattern.specs.Identifiers.{same};
ghost use Rattle.sno_pattern.specs.NameList.{first_repeat};
ghost use Rattle.sno_book.specs.Openings.{texts_seen, names_in, IsOpening};
ghost use Rattle.sno_book.specs.Starts.{contents, first_contents, GivesStart};
ghost use Rattle.sno_book.specs.declared.faults.BookFault.TheVariants.{TooMany, Memory, Duplicate};
ghost use Rattle.sno_book.specs.declared.openings.TheConstants.{MAX_ENTRIES};

use crate::openings::MAX_TEXTS;
use crate::versioned_texts::VersionedText;
use crate::{BookFault, Opening};
use indexmap::IndexMap;
use sno_pattern::{Text, TextName};
use std::alloc::Global;
use std::sync::Arc;

/// An opening, with its texts at their first versions.
#[derive(Drop)]
pub(crate) struct Start {
    pub(crate) opening: Opening,
    pub(crate) versioned_texts: Vec<VersionedText>,
}

/// Adds a text after the others, shared between the opening and the book, unless its name is already there. Returns
/// whether it was added.
fn add(
    alloc: Global,
    texts: &mut IndexMap<TextName, Arc<Text>>,
    versioned_texts: &mut Vec<VersionedText>,
    name: TextName,
    text: Text,
) -> Result<bool, BookFault>
    ensures added { IfOk result (λ added. added ≡ not (list_any (same name) (names_in (texts_seen texts.old.entries)))) }
    ensures texts { IfOk result (λ added. added ≡ true → texts_seen texts.new.entries ≡ texts_seen texts.old.entries ++ (name, text) ∷ []) }
    ensures versioned_texts { IfOk result (λ added. added ≡ true → contents versioned_texts.new.items ≡ contents versioned_texts.old.items ++ (text, 0) ∷ []) }
    ensures memory { IfErr result (λ e. e ≡ Memory) }
{
    if texts.contains_key(&name) {
        return Ok(false);
    }
    let text = Arc::new(alloc, text)?;
    let shared = Arc::try_clone(&text)?;
    texts.insert(name, text)?;
    versioned_texts.push(VersionedText {
        text: shared,
        version: 0,
    })?;
    Ok(true)
}

/// The opening of these texts with this room, and the texts at their first versions.
pub(crate) fn start_of(
    alloc: Global,
    texts: Vec<(TextName, Text)>,
    room: u32,
) -> Result<Start, BookFault>
    requires { room ≤ MAX_ENTRIES }
    ensures result { GivesStart result texts.items room }
    ensures opening { IfOk result (λ start. IsOpening start.opening) }
    ensures first { IfOk result (λ start. contents start.versioned_texts.items ≡ first_contents start.opening.texts) }
{
    if texts.len() > MAX_TEXTS {
        return Err(BookFault::TooMany);
    }
    let mut named = IndexMap::new(alloc);
    let mut versioned_texts = Vec::new(alloc);
    for (name, text) in texts {
        let place = named.len();
        if !add(alloc, &mut named, &mut versioned_texts, name, text)? {
            return Err(BookFault::Duplicate(place));
        }
    }
    Ok(Start {
        opening: Opening::of(named, room),
        versioned_texts,
    })
}
