//! Many heads, as a table of the characters with which none of them can begin.
ghost use Rattle.std.specs.Prelude.{◌≡◌, ◌&&◌, ℕ, false, not, get_or, nat_lt, length, take};
ghost use Rattle.memchr.specs.Find.{IsFirstByte};
ghost use Rattle.sno_primitives.specs.Rows.{rows_have};

use crate::starts::heads::Head;
use crate::starts::unmarking::unmark;
use sno_primitives::Rows;

// How many characters are looked at one by one. To look at sixteen at once is worth a call only after these.
const NEAR: usize = 32;

// How many characters are looked at one by one after a run, before the next run.
const AT_ONCE: usize = 16;

/// At which characters a start is passed over, and how many trials it costs there.
#[derive(Clone, Copy)]
pub struct HeadTable {
    pub passed: [bool; 256],
    pub trials: usize,
    // The ASCII characters at which it is passed over.
    rows: Rows,
    ghost by_rows: { (x : ℕ) → rows_have rows x ≡ nat_lt x 128 && get_or passed x false },
}

impl HeadTable {
    ghost use Rattle.sno_machine.specs.Beginnings.{is_passed, IsTableOf};

    /// The table of these heads. A start that is passed over costs a trial for each of them.
    pub fn of(heads: &[Head]) -> HeadTable
        ensures passed { IsTableOf heads.now result }
        ensures trials { result.trials ≡ length heads.now }
    {
        let mut passed = [true; 256];
        for head in heads {
            unmark(*head, &mut passed);
        }
        let rows = ascii_rows(&passed);
        HeadTable {
            passed,
            trials: heads.len(),
            rows,
        }
    }

    /// The index of the first character of the text with which one of the heads can begin, if there is one.
    pub fn first(&self, text: &[u8]) -> Option<usize>
        ensures { IsFirstByte (λ x. not (is_passed self.now x)) text.now result }
    {
        if text.len() <= NEAR {
            return self.first_by_table(text);
        }
        let (near, _) = text.split_at(NEAR);
        match self.first_by_table(near) {
            Some(place) => Some(place),
            None => self.first_by_rows(text),
        }
    }

    #[inline(always)]
    fn first_by_table(&self, text: &[u8]) -> Option<usize>
        ensures { IsFirstByte (λ x. not (is_passed self.now x)) text.now result }
    {
        let passed = &self.passed;
        text.iter()
            .position(|character| !passed[*character as usize])
    }

    // By rows up to a character that they don't have, and by the table over the next ones. So a few characters above 127 keep no
    // text from being gone over by rows. Kept out of line, since it is for far characters.
    #[inline(never)]
    fn first_by_rows(&self, text: &[u8]) -> Option<usize>
        ensures { IsFirstByte (λ x. not (is_passed self.now x)) text.now result }
    {
        let mut passed = 0;
        while passed < text.len() {
            let (_, rest) = text.split_at(passed);
            let run = self.rows.run(rest, true);
            let (_, far) = rest.split_at(run);
            let near = front(far, AT_ONCE);
            match self.first_by_table(near) {
                Some(place) => return Some(passed + run + place),
                None => passed += run + near.len(),
            }
        }
        None
    }
}

/// The first characters, at most this many.
#[inline(always)]
pub fn front(characters: &[u8], most: usize) -> &[u8]
    ensures { result.now ≡ take most characters.now }
{
    if most < characters.len() {
        characters.split_at(most).0
    } else {
        characters
    }
}

// The ASCII characters that are passed over. Fewer are not: those are put in, and then the others are taken.
fn ascii_rows(passed: &[bool; 256]) -> Rows
    ensures { (x : ℕ) → rows_have result x ≡ nat_lt x 128 && get_or passed.now x false }
{
    let mut kept = Rows::none();
    for character in 0..128 {
        if !passed[character as usize] {
            kept.add(character);
        }
    }
    kept.others()
}
