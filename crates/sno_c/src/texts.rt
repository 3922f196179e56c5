//! Texts that are kept for searches.
ghost use Rattle.std.specs.Prelude.{◌≡◌, ◌≤◌, IfOk, length};
ghost use Rattle.sno_pattern.specs.declared.byte_texts.TheConstants.{MAX_BYTES};
ghost use Rattle.sno_c.specs.declared.held.Held.TheVariants.{Text};

use crate::held::Held;
use sno_pattern::ByteText;
use std::alloc::{AllocError, Global};

/// A copy of the bytes, as a text that is held.
pub(crate) fn held_text(alloc: Global, bytes: &[u8]) -> Result<Box<Held>, AllocError>
    requires { length bytes.now ≤ MAX_BYTES }
    ensures { IfOk result (λ b. b.value ≡ Text bytes.now) }
{
    match ByteText::new(Vec::from_slice(alloc, bytes)?) {
        Ok(text) => Ok(Box::new(alloc, Held::Text(text))?),
        Err(_) => unreachable!(),
    }
}
