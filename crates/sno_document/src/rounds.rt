//! How often a statement is to be repeated, as its number in the document says.
ghost use Rattle.std.specs.Prelude.{unwrap_or, ◌≡◌, false};
ghost use Rattle.serde_json.specs.Data.{unsigned};
ghost use Rattle.serde_json.specs.Read.{number_from};
ghost use Rattle.sno_document.specs.Document.{rounds_in};
ghost use Rattle.sno_document.specs.Trees.{number_seen};

use crate::trees::has_minus;
use fast_float::Numeral;
use sno_statement::MAX_ROUNDS;

/// How many rounds an unsigned number says.
fn unsigned_rounds(numeral: &Numeral<'_>) -> Option<u32>
    ensures { result ≡ rounds_in (unwrap_or (number_from false numeral.now) (unsigned 0)) }
{
    match numeral.to_u64() {
        Some(rounds) if 1 <= rounds && rounds <= MAX_ROUNDS as u64 => Some(rounds as u32),
        _ => None,
    }
}

/// How many rounds a number says, if it is from 1 to 1,000 and written without sign, fraction and exponent.
pub(crate) fn rounds_in(text: &str) -> Option<u32>
    ensures { result ≡ rounds_in (number_seen text.now) }
{
    let bytes = text.as_bytes();
    if has_minus(bytes) {
        None
    } else {
        unsigned_rounds(&Numeral::scan(bytes))
    }
}
