//! Characters with which a head can begin are unmarked in a table.
ghost use Rattle.std.specs.Prelude.{◌≡◌, ◌&&◌, ℕ, false, not, get_or};
ghost use Rattle.sno_pattern.specs.Classes.{has};
ghost use Rattle.sno_machine.specs.Beginnings.{Unmarked};

use crate::starts::heads::Head;
use sno_pattern::Class;

// Unmarks the characters with which the head can begin.
pub fn unmark(head: Head, passed: &mut [bool; 256])
    ensures { Unmarked head.entry passed.old passed.new }
{
    match head {
        Head::Byte(byte) => passed[byte as usize] = false,
        Head::OneOf(class) => unmark_members(class, passed),
        Head::NoneOf(class) => unmark_others(class, passed),
    }
}

fn unmark_members(class: &Class, passed: &mut [bool; 256])
    ensures { (x : ℕ) → get_or passed.new x false ≡ get_or passed.old x false && not (has class.now x) }
{
    for member in class.members() {
        passed[*member as usize] = false;
    }
}

fn unmark_others(class: &Class, passed: &mut [bool; 256])
    ensures { (x : ℕ) → get_or passed.new x false ≡ get_or passed.old x false && not (not (has class.now x)) }
{
    let mut kept = [false; 256];
    for member in class.members() {
        kept[*member as usize] = passed[*member as usize];
    }
    *passed = kept;
}
