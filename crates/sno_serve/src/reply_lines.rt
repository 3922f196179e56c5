//! Replies as lines.
ghost use Rattle.std.specs.Prelude.{◌≡◌, IfOk, map};
ghost use Rattle.serde_json.specs.View.{view};
ghost use Rattle.sno_serve.specs.Contents.{content_data};
ghost use Rattle.sno_serve.specs.Replies.{IsLine, with_ignored};

use crate::Content;
use crate::ignored::with_ignored;
use serde_json::Value;
use std::alloc::{AllocError, Global};

/// How many bytes are made room for at first for each reply. Most take no more.
const LINE_ROOM: usize = 256;

/// A reply as a line.
pub fn line_of(alloc: Global, reply: &Value) -> Result<Vec<u8>, AllocError>
    ensures { IfOk result (λ line. IsLine (view reply.now) line.items) }
{
    let mut line = reply.to_vec(alloc)?;
    line.push(b'\n')?;
    Ok(line)
}

/// A reply as a line, when its line has no members that mean nothing there.
fn line_without(alloc: Global, reply: &Content) -> Result<Vec<u8>, AllocError>
    ensures { IfOk result (λ line. IsLine (content_data reply.now) line.items) }
{
    let mut line = Vec::with_capacity(alloc, LINE_ROOM)?;
    reply.put(alloc, &mut line)?;
    line.push(b'\n')?;
    Ok(line)
}

/// A reply as a line, with the names of members of its line that mean nothing there.
pub fn line_with(alloc: Global, reply: Content, ignored: Vec<Value>) -> Result<Vec<u8>, AllocError>
    ensures { IfOk result (λ line. IsLine (with_ignored (map view ignored.items) (content_data reply)) line.items) }
{
    if ignored.is_empty() {
        return line_without(alloc, &reply);
    }
    let value = reply.into_value(alloc)?;
    let noted = with_ignored(alloc, value, ignored)?;
    line_of(alloc, &noted)
}
