//! Blanks, words and quotations.
ghost use Rattle.std.specs.Prelude.{◌≡◌, ◌≤◌, length};
ghost use Rattle.std.specs.Option.{option_map};
ghost use Rattle.std.specs.List.{prefix_len, suffix_len};
ghost use Rattle.sno_rules.specs.Lines.{argument_of, before_quote, is_blank, is_quote, is_solid, trimmed, unquoted, word_of};

pub(crate) fn is_blank(character: u8) -> bool
    ensures { result ≡ is_blank character }
{
    character == b' ' || character == b'\t'
}

pub(crate) fn is_quote(character: u8) -> bool
    ensures { result ≡ is_quote character }
{
    character == b'\'' || character == b'"'
}

// How many blanks the text begins with.
pub(crate) fn blanks_before(text: &[u8]) -> usize
    ensures count { result ≡ prefix_len is_blank text.now }
    ensures within { result ≤ length text.now }
{
    text.iter().take_while(|c| is_blank(**c)).count()
}

// How many blanks it ends with.
fn blanks_after(text: &[u8]) -> usize
    ensures count { result ≡ suffix_len is_blank text.now }
    ensures within { result ≤ length text.now }
{
    text.iter().rev().take_while(|c| is_blank(**c)).count()
}

// How many characters it begins with that are no blanks.
fn solids_before(text: &[u8]) -> usize
    ensures count { result ≡ prefix_len is_solid text.now }
    ensures within { result ≤ length text.now }
{
    text.iter().take_while(|c| !is_blank(**c)).count()
}

// How many characters come before the first quote of this kind.
pub(crate) fn before_quote(text: &[u8], quote: u8) -> usize
    ensures count { result ≡ before_quote quote text.now }
    ensures within { result ≤ length text.now }
{
    text.iter().take_while(|c| **c != quote).count()
}

/// The text without the blanks at its ends.
pub(crate) fn trimmed(text: &[u8]) -> &[u8]
    ensures { result.now ≡ trimmed text.now }
{
    let (_, rest) = text.split_at(blanks_before(text));
    let (inside, _) = rest.split_at(rest.len() - blanks_after(rest));
    inside
}

/// The characters before the first blank, and the text after it without the blanks at its ends.
pub(crate) fn word_and_argument(text: &[u8]) -> (&[u8], &[u8])
    ensures word { result.0.now ≡ word_of text.now }
    ensures argument { result.1.now ≡ argument_of text.now }
{
    let (word, rest) = text.split_at(solids_before(text));
    (word, trimmed(rest))
}

/// The characters of a text that is one quotation; `None` for any other text.
pub(crate) fn unquoted(text: &[u8]) -> Option<&[u8]>
    ensures { option_map (λ s. s.now) result ≡ unquoted text.now }
{
    let (quote, rest) = text.split_first()?;
    let count = before_quote(rest, *quote);
    if is_quote(*quote) && count + 1 == rest.len() {
        Some(rest.split_at(count).0)
    } else {
        None
    }
}
