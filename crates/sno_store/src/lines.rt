//! Whole lines in memory.
ghost use Rattle.std.specs.Prelude.{◌≡◌, ◌++◌, ◌∷◌, [], OnOk, OnErr, IfErr, IsTrue, ◌↔◌};
ghost use Rattle.sno_store.specs.Lines.{recovered, bytes_of, IsLine};
ghost use Rattle.sno_store.specs.Faults.{IsCause};

use crate::LineFault;
use crate::splitting::split_line;
use memchr::memchr2;
use std::alloc::Global;

/// Lines, in their order, as the bytes that a file has for them.
#[derive(Drop)]
pub struct Lines {
    bytes: Vec<u8>,
    ghost whole: { bytes.items ≡ bytes_of (recovered bytes.items) },
}

impl Lines {
    ghost use Rattle.sno_store.specs.Shown.{lines_in, lines_left};

    /// No lines.
    pub fn new(alloc: Global) -> Lines
        ensures { lines_in result ≡ [] }
    {
        Lines {
            bytes: Vec::new(alloc),
        }
    }

    /// The lines that these bytes are.
    pub(crate) fn of_whole(bytes: Vec<u8>) -> Lines
        requires { bytes.items ≡ bytes_of (recovered bytes.items) }
        ensures { lines_in result ≡ recovered bytes.items }
    {
        Lines { bytes }
    }

    /// Adds a line, which is given without its line feed. It has to begin with `{`, and may have neither a line feed nor a NUL.
    /// After each refusal the lines are as they were.
    pub fn push(&mut self, line: &[u8]) -> Result<(), LineFault>
        ensures pushed { OnOk result (IsLine line.now × (lines_in self.new ≡ lines_in self.old ++ line.now ∷ [])) }
        ensures kept { OnErr result (lines_in self.new ≡ lines_in self.old) }
        ensures cause { IfErr result (λ fault. IsCause line.now fault) }
    {
        check_line(line)?;
        let before = self.bytes.len();
        if self.bytes.extend_from_slice(line).is_err() || self.bytes.push(b'\n').is_err() {
            self.bytes.truncate(before);
            return Err(LineFault::Memory);
        }
        Ok(())
    }

    /// No lines again. The memory is kept for the next ones.
    pub fn clear(&mut self)
        ensures { lines_in self.new ≡ [] }
    {
        self.bytes.clear();
    }

    /// Whether there are no lines.
    pub fn is_empty(&self) -> bool
        ensures { IsTrue result ↔ (lines_in self.now ≡ []) }
    {
        self.bytes.is_empty()
    }

    /// The bytes of the lines, each line with its line feed.
    pub fn bytes(&self) -> &[u8]
        ensures { result.now ≡ bytes_of (lines_in self.now) }
    {
        &self.bytes
    }

    /// Where their memory comes from.
    pub fn allocator(&self) -> Global {
        *self.bytes.allocator()
    }

    /// The lines in their order, each without its line feed. None is copied.
    pub fn iter(&self) -> LinesIter<'_>
        ensures { lines_left result ≡ lines_in self.now }
    {
        LinesIter { rest: &self.bytes }
    }
}

/// The lines that are still to come.
#[derive(Clone, Copy)]
pub struct LinesIter<'a> {
    rest: &'a [u8],
}

impl<'a> LinesIter<'a> {
    ghost use Rattle.sno_store.specs.Shown.{lines_left};

    /// The whole lines at the beginning of a file with these bytes.
    pub fn of_file(bytes: &'a [u8]) -> LinesIter<'a>
        ensures { lines_left result ≡ recovered bytes.now }
    {
        LinesIter { rest: bytes }
    }
}

impl<'a> Iterator for LinesIter<'a> {
    ghost use Rattle.std.specs.Iterator.{item_count};
    ghost use Rattle.std.specs.Option.{option_map};
    ghost use Rattle.sno_store.specs.Shown.{lines_left, GivesLine};

    type Item = &'a [u8];

    ghost next_gives = { λ old line new. GivesLine old (option_map (λ l. l.now) line) new };

    ghost remaining = { item_count lines_left };

    fn next(&mut self) -> Option<&'a [u8]> {
        let Some((line, rest)) = split_line(self.rest) else {
            return None;
        };
        self.rest = rest;
        Some(line)
    }
}

/// That these bytes are a line.
fn check_line(line: &[u8]) -> Result<(), LineFault>
    ensures line { OnOk result (IsLine line.now) }
    ensures cause { IfErr result (λ fault. IsCause line.now fault) }
{
    if line.is_empty() || line[0] != b'{' {
        return Err(LineFault::NoBrace);
    }
    match memchr2(b'\n', 0, line) {
        None => Ok(()),
        Some(at) if line[at] == 0 => Err(LineFault::Nul),
        Some(_) => Err(LineFault::LineFeed),
    }
}
