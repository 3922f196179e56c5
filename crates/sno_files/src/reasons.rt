//! Why a file of the system stays as it was, in words.

use crate::overtaken::{is_of_lost, is_of_overtaken};
use sno_edit::FileFault;
use std::fmt;
use std::io::ErrorKind;

/// Why a file of the system stays as it was. Its printed form is what a line for standard error says after the path: that of
/// the fault, but for three causes that only files of the system have.
#[derive(Clone, Copy, Debug, PartialEq, Eq)]
pub struct Reason(pub FileFault);

impl fmt::Display for Reason {
    fn fmt<W: fmt::Write>(&self, f: &mut fmt::Formatter<W>) -> fmt::Result {
        let Reason(fault) = self;
        match fault {
            FileFault::Unread(ErrorKind::InvalidInput) => f.write_str("not a regular file"),
            FileFault::Unwritten(kind) | FileFault::Unread(kind) if is_of_overtaken(*kind) => {
                f.write_str("changed by another program each time that it was edited")
            }
            FileFault::Unwritten(kind) if is_of_lost(*kind) => {
                f.write_str(
                    "changed by another program as it was replaced, and that change is lost",
                )
            }
            fault => write!(f, "{fault}"),
        }
    }
}
