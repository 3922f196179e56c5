//! Entries of the journal that a line asks for.
ghost use Rattle.std.specs.Prelude.{◌≡◌, ◌<◌, ◌≤◌, ◌+◌, ◌^◌, IfOk, length, map, take};
ghost use Rattle.std.specs.Option.{option_map};
ghost use Rattle.serde_json.specs.View.{view};
ghost use Rattle.sno_listing.specs.JsonListing.{entry_data};
ghost use Rattle.sno_serve.specs.Excerpts.{is_of, most_of, rows_of, up_to};

use serde_json::Value;
use sno_desk::{Entry, TextName};
use sno_listing::done_members;
use std::alloc::{AllocError, Global};

/// Which entries of the journal a line asks for.
#[derive(Drop)]
pub struct Excerpt {
    /// The index of the first one.
    pub from: u64,
    /// The most entries, if there is a limit.
    pub limit: Option<u64>,
    /// The name of the text whose entries are meant, if they are of one text.
    pub name: Option<TextName>,
}

/// Whether the entry is of the text of this name, or no text is named.
pub(crate) fn is_of(name: Option<&TextName>, entry: &Entry) -> bool
    ensures { result ≡ is_of (option_map (λ n. n.now) name.entry) entry.now }
{
    match name {
        None => true,
        Some(name) => entry.statement.text() == name,
    }
}

/// The object that the JSON listing has for an entry.
fn entry_value(alloc: Global, index: usize, entry: &Entry) -> Result<Value, AllocError>
    ensures { IfOk result (λ v. view v ≡ entry_data index entry.now) }
{
    let members = done_members(alloc, index, entry)?;
    Ok(Value::Object(members))
}

/// The objects of the first `most` entries of the text from the index `from` on.
fn first_values(
    alloc: Global,
    from: usize,
    entries: &[Entry],
    name: Option<&TextName>,
    most: usize,
) -> Result<Vec<Value>, AllocError>
    requires { from + length entries.now < 2 ^ 64 }
    ensures { IfOk result (λ v. map view v.items ≡ take most (rows_of (option_map (λ n. n.now) name.entry) from entries.now)) }
{
    let mut values = Vec::new(alloc);
    for (place, entry) in entries.iter().enumerate() {
        if values.len() >= most {
            return Ok(values);
        }
        if is_of(name, entry) {
            values.push(entry_value(alloc, from + place, entry)?)?;
        }
    }
    Ok(values)
}

/// How many of `count` entries may be listed.
pub(crate) fn most_of(limit: Option<u64>, count: usize) -> usize
    ensures { result ≡ most_of limit count }
{
    match limit {
        Some(limit) if limit < count as u64 => limit as usize,
        _ => count,
    }
}

impl Excerpt {
    /// The objects of those of the entries from the index `from` on that are asked for.
    pub fn values(
        &self,
        alloc: Global,
        from: usize,
        entries: &[Entry],
    ) -> Result<Vec<Value>, AllocError>
        requires { from + length entries.now < 2 ^ 64 }
        ensures { IfOk result (λ v. map view v.items ≡ up_to self.now.limit (rows_of self.now.name from entries.now)) }
    {
        let most = most_of(self.limit, entries.len());
        let values = first_values(alloc, from, entries, self.name.as_ref(), most)?;
        Ok(values)
    }
}
