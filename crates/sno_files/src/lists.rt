//! Lists of paths.
ghost use Rattle.std.specs.Prelude.{◌≡◌, ◌<◌, ◌∷◌, [], Some, length, map, IfOk, IfErr, OnOk};
ghost use Rattle.std.specs.List.{position};
ghost use Rattle.std.specs.Option.{option_map};
ghost use Rattle.sno_files.specs.Lists.{AreUtf8, HasListCause, HasPieceCause, bytes_left, is_end, paths_of, pieces, pieces_left, with_piece};

use std::alloc::{AllocError, AllocFailed, Global};
use std::str;

/// Why bytes are not a list of paths.
#[derive(Clone, Copy, Debug, PartialEq, Eq)]
pub enum ListFault {
    /// The path with this number, from 1, is not UTF-8.
    NotUtf8(usize),
    /// Out of memory.
    Memory,
}

impl From<AllocError> for ListFault {
    ghost use Rattle.std.specs.Prelude.{◌≡◌};
    ghost use Rattle.sno_files.specs.declared.lists.ListFault.TheVariants.{Memory};

    ghost from_gives = { λ _ e. e ≡ Memory };

    fn from(_refused: AllocError) -> ListFault {
        ListFault::Memory
    }
}

impl<T: Drop> From<AllocFailed<T>> for ListFault {
    ghost use Rattle.std.specs.Prelude.{◌≡◌};
    ghost use Rattle.sno_files.specs.declared.lists.ListFault.TheVariants.{Memory};

    ghost from_gives = { λ _ e. e ≡ Memory };

    fn from(_refused: AllocFailed<T>) -> ListFault {
        ListFault::Memory
    }
}

/// The place of the first `end` of a list.
fn first_end(list: &[u8], end: u8) -> Option<usize>
    ensures { result ≡ position (is_end end) list.now }
{
    list.iter().position(|byte| *byte == end)
}

/// What comes before the first `end` of a list, and what comes after it; `None` without one.
fn first_piece(list: &[u8], end: u8) -> (&[u8], Option<&[u8]>)
    ensures pieces { pieces end list.now ≡ result.0.now ∷ pieces_left end (option_map (λ b. b.now) result.1) }
    ensures shorter { bytes_left (option_map (λ b. b.now) result.1) < bytes_left (Some list.now) }
{
    match first_end(list, end) {
        None => (list, None),
        Some(place) => {
            let (piece, _) = list.split_at(place);
            let (_, after) = list.split_at(place + 1);
            (piece, Some(after))
        }
    }
}

/// Adds the path that a piece of a list is, unless it is empty.
fn put_path<'l>(piece: &'l [u8], paths: &mut Vec<&'l str>) -> Result<(), ListFault>
    ensures put { OnOk result (map (λ p. p.now) paths.new.items ≡ with_piece (map (λ p. p.now) paths.old.items) piece.now) }
    ensures utf8 { OnOk result (AreUtf8 (map (λ p. p.now) paths.old.items) → AreUtf8 (map (λ p. p.now) paths.new.items)) }
    ensures fault { IfErr result (λ e. HasPieceCause (length paths.old.items) piece.now e) }
{
    if piece.is_empty() {
        return Ok(());
    }
    let Ok(path) = str::from_utf8(piece) else {
        return Err(ListFault::NotUtf8(paths.len() + 1));
    };
    paths.push(path)?;
    Ok(())
}

/// The paths of a list, in order: what comes before each byte `end`, and what comes after the last. Empty ones are left out.
///
/// Refused:
/// - `NotUtf8` with the number of the first path, from 1, that is not UTF-8, unless memory runs out before;
/// - `Memory` if out of memory.
pub fn paths_in(alloc: Global, list: &[u8], end: u8) -> Result<Vec<&str>, ListFault>
    ensures paths { IfOk result (λ paths. map (λ p. p.now) paths.items ≡ paths_of end list.now) }
    ensures fault { IfErr result (λ e. HasListCause (paths_of end list.now) e) }
{
    let mut paths = Vec::new(alloc);
    let mut left = Some(list);
    while let Some(list) = left {
        let (piece, after) = first_piece(list, end);
        put_path(piece, &mut paths)?;
        left = after;
    }
    Ok(paths)
}
