//! What a test compares.
use std::fmt;
use std::process::Abort;

/// Stops the test where the value is another than the expected one.
pub(crate) fn check_eq<T: PartialEq + fmt::Debug>(rt: &impl Abort, found: &T, expected: &T) {
    assert!(rt; found == expected, "{found:?} is not {expected:?}");
}
