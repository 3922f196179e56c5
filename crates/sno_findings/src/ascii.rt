//! ASCII characters as text.

/// The text that the characters spell; the empty text for bytes that are not UTF-8.
pub fn text_of(characters: &[u8]) -> &str {
    match str::from_utf8(characters) {
        Ok(text) => text,
        Err(_) => "",
    }
}
