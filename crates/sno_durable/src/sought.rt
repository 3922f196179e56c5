//! What a line asks of a desk whose numbers begin at 0, and its reply as the client is shown it.
ghost use Rattle.std.specs.Prelude.{◌≡◌, ◌≤◌, ◌⊎◌, ◌+◌, IfOk, OnOk};
ghost use Rattle.std.specs.Option.{option_map};
ghost use mathlib.Core.List.{IsPrefix as Begins};
ghost use Rattle.serde_json.specs.View.{view};
ghost use Rattle.sno_desk.specs.declared.desk.TheConstants.{MAX_TRIES};
ghost use Rattle.sno_durable.specs.Past.{shown, version_of};
ghost use Rattle.sno_serve.specs.Contents.{content_data};
ghost use Rattle.sno_durable.specs.Sought.{IsRepliedOn, asked_here, gone_reply, name_asked};

use crate::past::{Past, lower, with_further};
use serde_json::{Map, Value, put};
use sno_desk::{Naming, Seat};
use sno_listing::{Refusal, text_name_value};
use sno_pattern::TextName;
use sno_serve::{Asked, AtDesk, Content, Excerpt, Line, Replied, reply_to};
use std::alloc::{AllocError, Global};
use std::sync::Wait;

/// What a client is shown.
#[derive(Drop)]
pub(crate) struct Shown {
    /// The reply.
    pub(crate) reply: Content,
    /// What the listing has of it, if it is a refused statement.
    pub(crate) refused: Option<Refusal>,
}

/// What is asked of the desk, about a text that had this version before; nothing if it is for entries from before its first one.
fn asked_here(entries: u64, before: u64, asked: Asked) -> Option<Asked>
    ensures { result ≡ asked_here entries before asked }
{
    match asked {
        Asked::PerformAt(statement, version) => {
            Some(Asked::PerformAt(statement, lower(before, version)))
        }
        Asked::ReadAt(name, version) => Some(Asked::ReadAt(name, lower(before, version))),
        Asked::Since(excerpt) => {
            let Excerpt { from, limit, name } = excerpt;
            if from < entries {
                return None;
            }
            let from = from - entries;
            Some(Asked::Since(Excerpt { from, limit, name }))
        }
        other => Some(other),
    }
}

/// The name of the text that a line is about, if it is about one.
fn name_asked(asked: &Asked) -> Option<&TextName>
    ensures { option_map (λ n. n.now) result ≡ name_asked asked.now }
{
    match asked {
        Asked::Perform(statement) => Some(statement.text()),
        Asked::PerformAt(statement, _) => Some(statement.text()),
        Asked::Check(statement) => Some(statement.text()),
        Asked::Read(name) => Some(name),
        Asked::ReadAt(name, _) => Some(name),
        Asked::Texts | Asked::Since(_) | Asked::Fault(_) => None,
    }
}

/// The version that the text which a line is about had before.
fn version_asked(alloc: Global, past: &Past, asked: &Asked) -> Result<u64, AllocError>
    ensures { IfOk result (λ v. v ≡ version_of (view past.now.versions) (name_asked asked.now)) }
{
    let Some(name) = name_asked(asked) else {
        return Ok(0);
    };
    let name = text_name_value(alloc, name)?;
    Ok(past.version_of(Some(&name)))
}

/// The reply to a line that asks for entries from before the first one that is left.
fn gone_reply(alloc: Global, id: Option<Value>, entries: u64) -> Result<Value, AllocError>
    ensures { IfOk result (λ v. view v ≡ gone_reply (option_map view id) entries) }
{
    let reason = Value::try_from_str(alloc, "compacted")?;
    let mut members = Map::new(alloc);
    put(&mut members, alloc, "reason", reason)?;
    put(&mut members, alloc, "first", Value::from(entries))?;
    let reply = Value::Object(members);
    match id {
        None => Ok(reply),
        Some(id) => with_further(alloc, reply, "id", id),
    }
}

/// A reply about a text that had this version before, as a client is shown it. Only if there are entries from before, a value is made of
/// it.
fn shown_here(
    alloc: Global,
    past: &Past,
    reply: Content,
    version: u64,
) -> Result<Content, AllocError>
    ensures { IfOk result (λ c. content_data c ≡ shown past.now.entries (view past.now.versions) version (content_data reply)) }
{
    if past.entries == 0 {
        return Ok(reply);
    }
    let value = reply.into_value(alloc)?;
    let value = past.shown(alloc, value, version)?;
    Ok(Content::Value(value))
}

/// Does what a line asks for at a seat, as [`sno_serve::reply_to`] does, with numbers that go on from what came before: indices of
/// entries and versions of texts. `tries` is from 1 to 1,000.
#[tactic(auto, using(sno_published::proofs::Prefixes::prefix_self))]
pub(crate) fn reply_here<L: Naming, R: Wait>(
    at: &AtDesk<'_, L, R>,
    seat: &mut Seat<L>,
    past: &Past,
    line: Line,
    tries: u32,
) -> Result<Shown, AllocError>
    requires { (1 ≤ tries) × (tries ≤ MAX_TRIES) }
    ensures replied { IfOk result (λ a. IsRepliedOn past.now.entries (view past.now.versions) tries L.opening seat.old.seen seat.new.seen (option_map view line.id) line.asked (content_data a.reply) a.refused) }
    ensures begins { OnOk result (Begins seat.old.seen seat.new.seen) }
    ensures counted { IfOk result (λ a. (seat.new.accepted ≡ seat.old.accepted) ⊎ (seat.new.accepted ≡ seat.old.accepted + 1)) }
{
    let AtDesk { rt, alloc, desk } = *at;
    let Line { id, asked, ignored } = line;
    let version = version_asked(alloc, past, &asked)?;
    let Some(asked) = asked_here(past.entries, version, asked) else {
        let reply = gone_reply(alloc, id, past.entries)?;
        return Ok(Shown {
            reply: Content::Value(reply),
            refused: None,
        });
    };
    let here = Line { id, asked, ignored };
    let Replied { reply, refused } = reply_to(rt, alloc, desk, seat, here, tries)?;
    let reply = shown_here(alloc, past, reply, version)?;
    Ok(Shown { reply, refused })
}
