//! Places in a text, as they are shown.
ghost use Rattle.std.specs.Prelude.{◌≡◌, ◌≤◌, ◌<◌, ◌+◌, length, if◌then◌else◌};
ghost use Rattle.sno_edit.specs.Positions.{begins_character, position_of};
ghost use Rattle.sno_edit.specs.Scripts.{is_line_feed};

/// A place in a text.
#[derive(Clone, Copy, Debug, PartialEq, Eq)]
pub struct Position {
    /// How many bytes come before it.
    pub place: usize,
    /// Its line, from 1.
    pub line: usize,
    /// How many characters of its line come before it, and one more. A byte from 128 to 191 belongs to the character before.
    pub column: usize,
}

/// Whether a character begins with this byte, if the text is UTF-8.
fn begins_character(byte: u8) -> bool
    ensures { result ≡ begins_character byte }
{
    byte < 128 || byte >= 192
}

/// The line of what comes after this byte of a line.
pub fn next_line(line: usize, byte: u8) -> usize
    requires { line < usize.MAX }
    ensures { result ≡ (if is_line_feed byte then line + 1 else line) }
{
    if byte == b'\n' { line + 1 } else { line }
}

/// The column of what comes after this byte of a column.
pub fn next_column(column: usize, byte: u8) -> usize
    requires { column < usize.MAX }
    ensures { result ≡ (if is_line_feed byte then 1 else (if begins_character byte then column + 1 else column)) }
{
    if byte == b'\n' {
        1
    } else if begins_character(byte) {
        column + 1
    } else {
        column
    }
}

impl Position {
    /// The position of the byte at this place, or of the end.
    pub(crate) fn of(bytes: &[u8], place: usize) -> Position
        requires { place ≤ length bytes.now }
        ensures { result ≡ position_of bytes.now place }
    {
        let (before, _) = bytes.split_at(place);
        let mut line = 1;
        let mut column = 1;
        for byte in before {
            line = next_line(line, *byte);
            column = next_column(column, *byte);
        }
        Position {
            place,
            line,
            column,
        }
    }
}
