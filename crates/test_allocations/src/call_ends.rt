//! What a test writes of its calls, a line each, for `tests/refused_growths` to read.
use std::fmt;
use std::process::Abort;
use std::test::Fail;

/// What a call came to.
#[derive(Clone, Copy, Debug, PartialEq, Eq)]
pub(crate) enum CallEnd {
    /// What it has to return.
    Given,
    /// That memory was refused.
    Refused,
}

impl fmt::Display for CallEnd {
    fn fmt<W: fmt::Write>(&self, f: &mut fmt::Formatter<W>) -> fmt::Result {
        f.write_str(match self {
            CallEnd::Given => "given",
            CallEnd::Refused => "refused",
        })
    }
}

/// Stops the test where the value is another than the expected one.
pub(crate) fn check_eq<T: PartialEq + fmt::Debug>(rt: &impl Abort, found: &T, expected: &T) {
    assert!(rt; found == expected, "{found:?} is not {expected:?}");
}

/// Stops the test where the bytes are others than the expected ones.
pub(crate) fn check_bytes(rt: &impl Abort, found: &[u8], expected: &[u8]) {
    assert_eq!(rt; found, expected);
}

/// Writes that all is made that the calls need.
pub(crate) fn tell_ready(rt: &impl Print) -> Result<(), Fail> {
    println!(rt; "ready")?;
    Ok(())
}

/// Writes what a call came to.
pub(crate) fn tell(rt: &impl Print, end: CallEnd) -> Result<(), Fail> {
    println!(rt; "{end}")?;
    Ok(())
}

/// Writes what a call came to each of two times.
pub(crate) fn tell_both(rt: &impl Print, ends: (CallEnd, CallEnd)) -> Result<(), Fail> {
    tell(rt, ends.0)?;
    tell(rt, ends.1)
}

/// Writes that all is made that the call needs, and what it comes to each of two times.
pub(crate) fn tell_twice<F: Fn() -> CallEnd>(rt: &impl Print, call: F) -> Result<(), Fail>
    requires { F.IsAlwaysCallable call }
{
    tell_ready(rt)?;
    tell(rt, call())?;
    tell(rt, call())
}
