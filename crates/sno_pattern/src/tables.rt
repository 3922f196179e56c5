//! Sets of characters as bits, so that one look finds whether a character is a member.
ghost use Rattle.std.specs.Prelude.{◌≡◌, ℕ, ◌+◌, ◌<◌, ◌≤◌, IsTrue};
ghost use Rattle.std.specs.Char.{is_ascii};
ghost use Rattle.std.specs.List.{list_all};
ghost use Rattle.sno_pattern.specs.Classes.{has};
ghost use Rattle.sno_pattern.specs.Tables.{IsTableOf, is_set, table_has};
ghost use Rattle.sno_pattern.specs.declared.tables.TheConstants.{WORD_BITS};

// How many bits a word has.
const WORD_BITS: u8 = 64;

// A bit for each byte, 64 in a word. The bits of bytes above 127 are 0.
#[derive(Clone, Copy)]
pub struct Table {
    words: [u64; 4],
}

impl Table {
    // The table of these characters.
    pub fn of(members: &[u8]) -> Table
        requires { IsTrue (list_all is_ascii members.now) }
        ensures { IsTableOf members.now result }
    {
        Table {
            words: [word_of(members, 0), word_of(members, 64), 0, 0],
        }
    }

    // Whether the character is one of them. There is no branch in the code.
    #[inline(always)]
    pub fn has(&self, character: u8) -> bool
        ensures { result ≡ table_has self.now character }
    {
        is_set(self.words[(character / 64) as usize], character % 64)
    }
}

// The bits of the 64 characters from the first on.
fn word_of(members: &[u8], first: u8) -> u64
    ensures { (place : ℕ) → place < WORD_BITS → is_set result place ≡ has members.now (first + place) }
{
    let mut word: u64 = 0;
    for member in members {
        if first <= *member && *member - first < WORD_BITS {
            let place = *member - first;
            word |= 1 << place;
        }
    }
    word
}

// Whether the bit at a place is 1.
#[inline(always)]
#[tactic(auto, using(std::proofs::lemmas::Nat::Bits::shr_and_one))]
fn is_set(word: u64, place: u8) -> bool
    requires { place < WORD_BITS }
    ensures { result ≡ is_set word place }
{
    (word >> place) & 1 == 1
}
