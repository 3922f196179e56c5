//! The first sign of a text that is in no quotes.
ghost use Rattle.std.specs.Prelude.{◌≡◌, ◌≤◌, ◌&&◌, length, nat_eq};
ghost use Rattle.sno_rules.specs.Lines.{before_sign, front_of, quote_after, rest_of};

/// In which quotes the character after this one is: 0 if in none.
fn quote_after(quote: u8, character: u8) -> u8
    ensures { result ≡ quote_after quote character }
{
    if quote == 0 {
        if character == b'\'' || character == b'"' {
            return character;
        }
        return 0;
    }
    if character == quote { 0 } else { quote }
}

/// Whether the character is the sign, and in no quotes.
fn is_sign(quote: u8, character: u8, sign: u8) -> bool
    ensures { result ≡ nat_eq quote 0 && nat_eq character sign }
{
    quote == 0 && character == sign
}

/// How many characters come before the first sign outside quotes; all of them without such a sign.
pub(crate) fn before_sign(text: &[u8], sign: u8) -> usize
    ensures exact { result ≡ before_sign sign 0 text.now }
    ensures within { result ≤ length text.now }
{
    let mut quote = 0;
    for place in 0..text.len() {
        let character = text[place];
        if is_sign(quote, character, sign) {
            return place;
        }
        quote = quote_after(quote, character);
    }
    text.len()
}

/// What comes before the first sign that is in no quotes, and the text from that sign on.
pub(crate) fn split(text: &[u8], sign: u8) -> (&[u8], &[u8])
    ensures front { result.0.now ≡ front_of sign text.now }
    ensures rest { result.1.now ≡ rest_of sign text.now }
{
    let parts = text.split_at(before_sign(text, sign));
    parts
}
