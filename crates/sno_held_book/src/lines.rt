//! A line with its reply.
ghost use Rattle.std.specs.Prelude.{◌≡◌, IfOk};
ghost use Rattle.std.specs.Option.{option_map};
ghost use Rattle.std.specs.Arc.{arc_value};
ghost use Rattle.serde_json.specs.View.{view};
ghost use Rattle.sno_book.specs.Books.{view_of};
ghost use Rattle.sno_serve.specs.Accepted.{AsksFor};
ghost use Rattle.sno_serve.specs.Contents.{content_data};
ghost use Rattle.sno_held_book.specs.Lines.{HasTaken, IsNotedOn, IsPerformed, IsPerformedAt, IsReplied};

use crate::attempts::{attempt, submit, submit_at};
use crate::reads::{list, list_texts, look, look_at};
use serde_json::Value;
use sno_book::Book;
use sno_desk::Statement;
use sno_serve::{
    Asked, Content, Line, Replied, at_refusal, at_reply, fault_reply, refusal_in, submit_reply,
    tried_reply,
};
use std::alloc::{AllocError, Global};
use std::sync::Arc;

/// Performs a statement, and puts its result into a reply.
#[tactic(auto, using(crate::proofs::Performing::taken))]
fn perform(
    alloc: Global,
    book: &mut Book,
    id: Option<Value>,
    statement: Statement,
) -> Result<Replied, AllocError>
    ensures performed { IfOk result (λ a. IsPerformed (view_of book.old) (view_of book.new) (option_map view id) statement (content_data a.reply) a.refused) }
    ensures taken { HasTaken (λ s. s ≡ statement) (view_of book.old) (view_of book.new) }
{
    let number = statement.number();
    let statement = Arc::new(alloc, statement)?;
    let gave = submit(alloc, book, &statement);
    let refused = refusal_in(number, &gave);
    let reply = submit_reply(alloc, id, gave)?;
    Ok(Replied { reply, refused })
}

/// Performs a statement if its text has this version, and puts its result into a reply.
#[tactic(auto, using(crate::proofs::Performing::taken_at))]
fn perform_at(
    alloc: Global,
    book: &mut Book,
    id: Option<Value>,
    statement: Statement,
    version: u64,
) -> Result<Replied, AllocError>
    ensures performed { IfOk result (λ a. IsPerformedAt (view_of book.old) (view_of book.new) (option_map view id) statement version (content_data a.reply) a.refused) }
    ensures taken { HasTaken (λ s. s ≡ statement) (view_of book.old) (view_of book.new) }
{
    let number = statement.number();
    let statement = Arc::new(alloc, statement)?;
    let gave = submit_at(alloc, book, &statement, version);
    let refused = at_refusal(number, &gave);
    let reply = at_reply(alloc, id, gave)?;
    Ok(Replied { reply, refused })
}

/// Shows what a statement would do, with what is found in it.
#[tactic(auto, using(crate::proofs::Replying::noted_on))]
fn try_out(
    alloc: Global,
    book: &Book,
    id: Option<Value>,
    statement: Statement,
) -> Result<Value, AllocError>
    ensures { IfOk result (λ v. IsNotedOn (view_of book.now) (option_map view id) statement (view v)) }
{
    let statement = Arc::new(alloc, statement)?;
    let gave = attempt(alloc, book, &statement);
    let reply = tried_reply(alloc, id, book.journal().len(), &statement, &gave)?;
    Ok(reply)
}

/// Does what a line asks for on the book, and returns the reply.
///
/// The reply to a statement is its entry at its index, as the JSON listing has it, or the reason for which it was refused. A read gets
/// its text as it is, or as it was at a version; `texts` all of them; an index the entries from there on that are asked for. A
/// statement that is only tried gets the entry that it would be, and what is found in it. A line that can't be read gets words that
/// say why. Each reply has the line's id, if there is one.
///
/// A statement that is accepted is one entry, and what is refused or only asked for changes nothing.
///
/// Refused only if memory runs out. The book is unchanged then, or has one entry more, of the line's statement.
pub fn reply_to(alloc: Global, book: &mut Book, line: Line) -> Result<Replied, AllocError>
    ensures replied { IfOk result (λ a. IsReplied (view_of book.old) (view_of book.new) (option_map view line.id) line.asked (content_data a.reply) a.refused) }
    ensures taken { HasTaken (AsksFor line.asked) (view_of book.old) (view_of book.new) }
{
    let Line { id, asked, .. } = line;
    let reply = match asked {
        Asked::Perform(statement) => return perform(alloc, book, id, statement),
        Asked::PerformAt(statement, version) => {
            return perform_at(alloc, book, id, statement, version);
        }
        Asked::Check(statement) => try_out(alloc, book, id, statement)?,
        Asked::Read(name) => look(alloc, book, id, &name)?,
        Asked::ReadAt(name, version) => look_at(alloc, book, id, &name, version)?,
        Asked::Texts => list_texts(alloc, book, id)?,
        Asked::Since(excerpt) => list(alloc, book, id, &excerpt)?,
        Asked::Fault(fault) => fault_reply(alloc, id, &fault)?,
    };
    Ok(Replied {
        reply: Content::Value(reply),
        refused: None,
    })
}
