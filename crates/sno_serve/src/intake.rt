//! Lines of a reader.
ghost use Rattle.std.specs.Prelude.{◌≡◌, ◌<◌, length, IfErr, IfSome};
ghost use Rattle.sno_serve.specs.declared.faults.ServeFault.TheVariants.{Memory};

use crate::ServeFault;
use std::alloc::Global;
use std::io::{BufRead, BufReader, Read};

/// The most bytes that a line may have, without its line feed.
pub const MAX_LINE: usize = 16_777_216;

const CAPACITY: usize = 65_536;

/// What comes next.
#[derive(Drop)]
pub enum Next {
    /// A line, without its line feed.
    Line(Vec<u8>),
    /// A line that was longer than it may be, and was passed over.
    TooLong,
    /// There are no more lines.
    End,
}

/// A line that is being read.
#[derive(Drop)]
struct Draft {
    bytes: Vec<u8>,
    is_too_long: bool,
    is_any: bool,
}

/// Where the lines come from: a reader, whose bytes are divided at line feeds.
#[derive(Drop)]
pub struct Intake<I: Read> {
    reader: BufReader<I>,
    /// Whether the document's statements were performed.
    pub(crate) is_begun: bool,
    is_ended: bool,
}

impl Draft {
    /// Adds a piece, unless the line is too long with it.
    fn add(&mut self, piece: &[u8]) -> Result<(), ServeFault> {
        self.is_any = true;
        if self.is_too_long || piece.len() > MAX_LINE || self.bytes.len() > MAX_LINE - piece.len() {
            self.is_too_long = true;
            return Ok(());
        }
        self.bytes.extend_from_slice(piece)?;
        Ok(())
    }
}

/// The place of the first line feed.
fn line_feed(piece: &[u8]) -> Option<usize>
    ensures { IfSome result (λ place. place < length piece.now) }
{
    piece.iter().position(|b| *b == b'\n')
}

/// Adds what the reader has, up to a line feed, and returns whether the line has ended.
fn add_piece<B: BufRead>(reader: &mut B, draft: &mut Draft) -> Result<bool, ServeFault> {
    let Ok(piece) = reader.fill_buf() else {
        return Err(ServeFault::Read);
    };
    if piece.is_empty() {
        return Ok(true);
    }
    let (count, is_whole) = match line_feed(piece) {
        Some(place) => {
            draft.add(piece.split_at(place).0)?;
            (place + 1, true)
        }
        None => {
            draft.add(piece)?;
            (piece.len(), false)
        }
    };
    reader.consume(count);
    Ok(is_whole)
}

impl<I: Read + Drop> Intake<I> {
    /// The lines of the reader. Refused only if memory runs out.
    pub fn new(alloc: Global, reader: I) -> Result<Intake<I>, ServeFault>
        ensures { IfErr result (λ e. e ≡ Memory) }
    {
        match BufReader::with_capacity(alloc, CAPACITY, reader) {
            Ok(reader) => Ok(Intake {
                reader,
                is_begun: false,
                is_ended: false,
            }),
            Err(_) => Err(ServeFault::Memory),
        }
    }

    /// No more lines are taken.
    pub(crate) fn end(&mut self) {
        self.is_ended = true;
    }

    /// Whether a whole line was read already, so that [`Intake::next`] returns it without a read.
    pub fn has_line(&self) -> bool {
        !self.is_ended && line_feed(self.reader.buffer()).is_some()
    }

    /// The next line, without its line feed, or that there are no more. It waits until the reader has a line or its end.
    ///
    /// Refused: `Read` if the reader fails, `Memory` if memory runs out.
    pub fn next(&mut self, alloc: Global) -> Result<Next, ServeFault> {
        if self.is_ended {
            return Ok(Next::End);
        }
        let mut draft = Draft {
            bytes: Vec::new(alloc),
            is_too_long: false,
            is_any: false,
        };
        for _ in 0..u64::MAX {
            if add_piece(&mut self.reader, &mut draft)? {
                break;
            }
        }
        if !draft.is_any {
            self.is_ended = true;
            return Ok(Next::End);
        }
        if draft.is_too_long {
            return Ok(Next::TooLong);
        }
        Ok(Next::Line(draft.bytes))
    }
}
