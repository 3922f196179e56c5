//! What a test compares. If it stops, it says at which case.
use std::process::Abort;
use std::{fmt, str};

/// Stops the test if the value is not the expected one.
pub(crate) fn check_eq<T: PartialEq + fmt::Debug>(
    rt: &impl Abort,
    what: &str,
    found: &T,
    expected: &T,
) {
    assert!(rt;
        found == expected,
        "for {what}: {found:?} is not {expected:?}"
    );
}

/// Stops the test if the bytes are not the expected text.
pub(crate) fn check_text(rt: &impl Abort, what: &str, found: &[u8], expected: &str) {
    let text = str::from_utf8(found).unwrap_or_default();
    assert!(rt;
        found == expected.as_bytes(),
        "for {what}: {text} is not {expected}"
    );
}

/// Stops the test if the part is not in the text.
pub(crate) fn check_part(rt: &impl Abort, what: &str, text: &str, part: &str) {
    assert!(rt; text.contains(part), "for {what}: {part} is not in {text}");
}

/// Stops the test if the text doesn't begin like this.
pub(crate) fn check_beginning(rt: &impl Abort, what: &str, text: &str, beginning: &str) {
    assert!(rt;
        text.starts_with(beginning),
        "for {what}: {text} doesn't begin with {beginning}"
    );
}
