//! The lines that a client gets.
ghost use Rattle.std.specs.Prelude.{OnOk, map};
ghost use Rattle.serde_json.specs.View.{view};
ghost use Rattle.sno_serve.specs.Contents.{content_data};
ghost use Rattle.sno_serve.specs.Replies.{with_ignored};
ghost use Rattle.sno_durable.specs.Performed.{AddsLine, IsText};

use serde_json::{Map, Value, put};
use sno_serve::{Content, with_ignored};
use std::alloc::{AllocError, Global};

/// Puts a reply down as a line.
pub(crate) fn put_reply(
    alloc: Global,
    replies: &mut Vec<u8>,
    reply: &Value,
) -> Result<(), AllocError>
    ensures { OnOk result (AddsLine (view reply.now) replies.old.items replies.new.items) }
{
    let line = reply.to_vec(alloc)?;
    replies.extend_from_slice(&line)?;
    replies.push(b'\n')?;
    Ok(())
}

/// Puts down the text of a reply as a line. If members of its line mean nothing there, the reply is written anew with their names. A
/// record has the reply without them.
pub(crate) fn put_noted(
    alloc: Global,
    replies: &mut Vec<u8>,
    text: &[u8],
    reply: Content,
    ignored: Vec<Value>,
) -> Result<(), AllocError>
    ensures { OnOk result (IsText (content_data reply) text.now → AddsLine (with_ignored (map view ignored.items) (content_data reply)) replies.old.items replies.new.items) }
{
    if ignored.is_empty() {
        replies.extend_from_slice(text)?;
        replies.push(b'\n')?;
        return Ok(());
    }
    let value = reply.into_value(alloc)?;
    let noted = with_ignored(alloc, value, ignored)?;
    put_reply(alloc, replies, &noted)
}

/// The reply to a line that is too long.
pub(crate) fn too_long(alloc: Global) -> Result<Value, AllocError> {
    let words = Value::try_from_str(alloc, "longer than 16777216 bytes")?;
    let mut members = Map::new(alloc);
    put(&mut members, alloc, "error", words)?;
    Ok(Value::Object(members))
}
