//! Texts as they are at one moment, and as they were at one version.
ghost use Rattle.std.specs.Prelude.{◌≡◌, ◌⊎◌, ◌+◌, IfOk, codes, length, map};
ghost use Rattle.std.specs.Arc.{arc_value};
ghost use Rattle.std.specs.Option.{option_map};
ghost use mathlib.Core.List.{IsPrefix as Begins};
ghost use Rattle.serde_json.specs.View.{view};
ghost use Rattle.sno_book.specs.Openings.{names_in, place_in};
ghost use Rattle.sno_serve.specs.Replies.{IsListed, IsNoted, IsTried, read_at_reply, word_reply};
ghost use Rattle.sno_serve.specs.Versions.{given_by, opened_at, replaced_at, text_at_version};

use crate::at_desk::AtDesk;
use crate::findings::with_findings;
use crate::replies::{check_reply, look_reason, read_at_reply, reason_reply, texts_reply};
use serde_json::Value;
use sno_check::statement_warnings;
use sno_desk::{
    Entry, Naming, Opening, Proposal, Seat, SinceFault, Statement, SubmitFault, Text, TextName,
};
use std::alloc::{AllocError, Global};
use std::sync::{Arc, Wait};

/// The new text, if the entry replaces the text of this name and so gives it this version.
fn given_by<'e>(name: &TextName, version: u64, entry: &'e Entry) -> Option<&'e Text>
    ensures { option_map (λ t. t.now) result ≡ given_by name.now version entry.now }
{
    if entry.statement.text() == name && entry.version.checked_add(1) == Some(version) {
        let text = entry.outcome.after()?;
        Some(text)
    } else {
        None
    }
}

/// The new text of the first of these entries that gave the text of this name this version.
#[tactic(auto, using(crate::proofs::Rows::found, crate::proofs::Rows::passed))]
fn replaced_at<'e>(entries: &'e [Entry], name: &TextName, version: u64) -> Option<&'e Text>
    ensures { option_map (λ t. t.now) result ≡ replaced_at entries.now name.now version }
{
    for entry in entries {
        if let Some(text) = given_by(name, version, entry) {
            return Some(text);
        }
    }
    None
}

/// The text that the opening has with this name.
fn opened_at<'o>(opening: &'o Opening, name: &TextName) -> Option<&'o Text>
    ensures { option_map (λ t. t.now) result ≡ opened_at opening.now (place_in opening.now name.now) }
{
    let place = opening.place(name)?;
    let (_, text) = opening.row(place)?;
    Some(text)
}

/// The text of this name as it was at a version, after these entries.
pub fn text_at<'t>(
    opening: &'t Opening,
    entries: &'t [Entry],
    name: &TextName,
    version: u64,
) -> Option<&'t Text>
    ensures { option_map (λ t. t.now) result ≡ text_at_version opening.now entries.now name.now version }
{
    if version == 0 {
        opened_at(opening, name)
    } else {
        replaced_at(entries, name, version)
    }
}

/// Reads a text as it was at a version. The time grows with the journal.
pub(crate) fn look_at<L: Naming, R: Wait>(
    at: &AtDesk<'_, L, R>,
    seat: &mut Seat<L>,
    id: Option<Value>,
    name: &TextName,
    version: u64,
) -> Result<Value, AllocError>
    ensures looked { IfOk result (λ v. (view v ≡ read_at_reply (option_map view id) name.now version (place_in L.opening name.now) (text_at_version L.opening seat.new.seen name.now version)) ⊎ (view v ≡ word_reply (option_map view id) (codes "reason") (codes "stopped"))) }
    ensures same { seat.new.accepted ≡ seat.old.accepted }
    ensures begins { Begins seat.old.seen seat.new.seen }
{
    let AtDesk { rt, alloc, desk } = *at;
    let opening = seat.opening()?;
    match desk.since(rt, seat, 0) {
        Ok(entries) => {
            let text = text_at(&opening, &entries, name, version);
            read_at_reply(alloc, id, name, version, opening.place(name), text)
        }
        Err(SinceFault::Stopped) => reason_reply(alloc, id, "stopped"),
        Err(SinceFault::Memory) => Err(AllocError),
    }
}

/// The names of the texts, in their order.
#[tactic(auto, using(crate::proofs::Rows::names_ended))]
fn names_of(alloc: Global, opening: &Opening) -> Result<Vec<&TextName>, AllocError>
    ensures { IfOk result (λ v. map (λ n. n.now) v.items ≡ names_in opening.now.texts) }
{
    let mut names = Vec::with_capacity(alloc, opening.len())?;
    for place in 0..opening.len() {
        let Some((name, _)) = opening.row(place) else {
            return Ok(names);
        };
        names.push(name)?;
    }
    Ok(names)
}

/// Lists the texts, as the seat sees them at one moment.
#[tactic(auto, using(crate::proofs::Rows::listed, crate::proofs::Rows::not_listed))]
pub(crate) fn list_texts<L: Naming>(
    alloc: Global,
    seat: &mut Seat<L>,
    id: Option<Value>,
) -> Result<Value, AllocError>
    ensures listed { IfOk result (λ v. IsListed L.opening seat.new.seen (option_map view id) (view v)) }
    ensures same { seat.new.accepted ≡ seat.old.accepted }
    ensures begins { Begins seat.old.seen seat.new.seen }
{
    let opening = seat.opening()?;
    let names = names_of(alloc, &opening)?;
    match seat.snapshots(alloc, &names) {
        Ok(taken) => {
            let reply = texts_reply(alloc, id, &names, &taken)?;
            Ok(reply)
        }
        Err(fault) => {
            let reply = look_reason(alloc, id, fault)?;
            Ok(reply)
        }
    }
}

/// The reply to a statement that was only tried: the entry that it would be at this index, with what is found in the statement and
/// the id.
#[tactic(auto, using(crate::proofs::Tried::noted))]
pub fn tried_reply(
    alloc: Global,
    id: Option<Value>,
    index: usize,
    statement: &Statement,
    gave: &Result<Proposal, SubmitFault>,
) -> Result<Value, AllocError>
    ensures { IfOk result (λ v. IsNoted (option_map view id) index statement.now gave.now (view v)) }
{
    let reply = check_reply(alloc, id, index, gave)?;
    let warnings = statement_warnings(alloc, statement)?;
    let noted = with_findings(alloc, reply, statement.number(), &warnings)?;
    Ok(noted)
}

/// Shows what a statement would do to its text as the seat sees it now, with what is found in the statement.
#[tactic(auto, using(crate::proofs::Tried::tried))]
pub(crate) fn try_out<L: Naming>(
    alloc: Global,
    seat: &mut Seat<L>,
    id: Option<Value>,
    statement: Statement,
) -> Result<Value, AllocError>
    ensures tried { IfOk result (λ v. IsTried L.opening seat.new.seen (option_map view id) statement (view v)) }
    ensures same { seat.new.accepted ≡ seat.old.accepted }
    ensures begins { Begins seat.old.seen seat.new.seen }
{
    let statement = Arc::new(alloc, statement)?;
    let gave = seat.propose(alloc, &statement);
    let index = seat.seen() as usize;
    let reply = tried_reply(alloc, id, index, &statement, &gave)?;
    Ok(reply)
}
