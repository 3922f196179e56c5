//! Lines to a writer, and what the listing has of refused statements.

use crate::ServeFault;
use sno_listing::Refusal;
use std::alloc::Global;
use std::io::Write;

/// The listing has no more refused statements than this. They would take memory without a bound.
pub const MAX_REFUSED: usize = 1_000_000;

/// Where the replies go.
#[derive(Drop)]
pub(crate) struct Outlet<W: Write> {
    writer: W,
    /// Whether there will be a listing.
    lists: bool,
    refused: Vec<Refusal>,
    fault: Option<ServeFault>,
}

impl<W: Write + Drop> Outlet<W> {
    pub(crate) fn new(alloc: Global, writer: W, lists: bool) -> Outlet<W> {
        Outlet {
            writer,
            lists,
            refused: Vec::new(alloc),
            fault: None,
        }
    }

    /// Whether nothing has failed yet.
    pub(crate) fn is_open(&self) -> bool {
        self.fault.is_none()
    }

    /// What the listing has of refused statements, and the first fault.
    pub(crate) fn into_parts(self) -> (Vec<Refusal>, Option<ServeFault>) {
        (self.refused, self.fault)
    }

    /// Takes a fault, if it is the first one.
    pub(crate) fn fail(&mut self, fault: ServeFault) {
        if self.fault.is_none() {
            self.fault = Some(fault);
        }
    }

    /// Takes what the listing has of a refused statement, if there will be one.
    pub(crate) fn refuse(&mut self, refused: Option<Refusal>) {
        let Some(refusal) = refused else {
            return;
        };
        if !self.lists {
            return;
        }
        if self.refused.len() < MAX_REFUSED && self.refused.push(refusal).is_err() {
            self.fail(ServeFault::Memory);
        }
    }

    /// Writes a line, unless something has failed.
    pub(crate) fn put(&mut self, line: &[u8]) {
        if self.is_open() {
            if self.writer.write_all(line).is_err() || self.writer.flush().is_err() {
                self.fail(ServeFault::Write);
            }
        }
    }
}
