//! Snapshots of the texts that are shown.
ghost use Rattle.std.specs.Prelude.{◌≡◌, map, IfOk};
ghost use Rattle.std.specs.Option.{option_map};
ghost use Rattle.sno_published.specs.Snapshots.{snapshot_of, snapshots_of};

use crate::{Naming, Table};
use sno_book::{Origin, Snapshot, TextName};
use std::alloc::{AllocError, Global};
use std::sync::Arc;

/// A snapshot of the text of this name, if there is one.
fn snapshot_of<L: Naming>(table: &Table<L>, name: &TextName) -> Result<Option<Snapshot>, AllocError>
    ensures { IfOk result (λ o. o ≡ snapshot_of L.opening table.now name.now) }
{
    let Some(place) = table.opening().place(name) else {
        return Ok(None);
    };
    let Some((text, version)) = table.text(place) else {
        return Ok(None);
    };
    // for the proof
    let _ = table.front();
    let _ = table.opening().len();
    let text = Arc::try_clone(text)?;
    Ok(Some(Snapshot::new(Origin::of(table), place, version, text)))
}

/// Snapshots of the texts of these names, in their order. `None` if there is no text of one of the names.
pub(crate) fn snapshots_of<L: Naming>(
    alloc: Global,
    table: &Table<L>,
    names: &[&TextName],
) -> Result<Option<Vec<Snapshot>>, AllocError>
    ensures { IfOk result (λ o. option_map (λ v. v.items) o ≡ snapshots_of L.opening table.now (map (λ n. n.now) names.now)) }
{
    let mut taken = Vec::with_capacity(alloc, names.len())?;
    for name in names {
        match snapshot_of(table, name)? {
            Some(snapshot) => taken.push(snapshot)?,
            None => return Ok(None),
        }
    }
    Ok(Some(taken))
}
