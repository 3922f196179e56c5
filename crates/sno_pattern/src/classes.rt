//! Sets of characters.
ghost use Rattle.std.specs.Prelude.{◌≡◌, nat_eq};
ghost use Rattle.std.specs.Cmp.{partial_equiv_from_equiv};
ghost use Rattle.std.specs.Cmp.Lexicographic.{pointwise, nat_list_eq_equiv};
ghost use Rattle.std.specs.List.{list_all};
ghost use Rattle.std.specs.Char.{is_ascii};
ghost use Rattle.sno_pattern.specs.Classes.{class_of, has, is_class};

use crate::tables::Table;
use std::fmt;
use std::marker::Model;

/// A set of ASCII characters with at least one member, as `SPAN` and the other primitives with sets take it.
#[derive(Drop)]
pub struct Class {
    members: Vec<u8>,
    table: Table,
}

impl Model for Class {
    ghost use Rattle.std.specs.Prelude.{ℕ, List, IsTrue};
    ghost use Rattle.sno_pattern.specs.Classes.{is_class};
    ghost use Rattle.sno_pattern.specs.Tables.{IsTableOf};

    ghost Value = { List ℕ };

    ghost view = { λ s. s.members.items };

    ghost invariant = { λ s. IsTrue (is_class s.members.items) × IsTableOf s.members.items s.table };
}

impl Class {
    /// The set of these characters, which may come in any order and repeat. `None` if the list is empty or has a byte above
    /// 127. It takes no memory.
    pub fn new(members: Vec<u8>) -> Option<Class>
        ensures { result ≡ class_of members.items }
    {
        if !is_class(&members) {
            return None;
        }
        let table = Table::of(&members);
        Some(Class { members, table })
    }

    /// The characters that it was made of, in their order and with their repetitions.
    #[inline(always)]
    pub fn members(&self) -> &[u8]
        ensures { result.now ≡ self.now }
    {
        self.members.as_slice()
    }

    /// Whether the character is a member.
    #[inline(always)]
    pub fn has(&self, character: u8) -> bool
        ensures { result ≡ has self.now character }
    {
        self.table.has(character)
    }
}

fn is_class(members: &[u8]) -> bool
    ensures { result ≡ is_class members.now }
{
    !members.is_empty() && are_ascii(members)
}

fn are_ascii(members: &[u8]) -> bool
    ensures { result ≡ list_all is_ascii members.now }
{
    members.iter().all(|member| member.is_ascii())
}

impl PartialEq for Class {
    ghost eq = { λ s t. pointwise nat_eq s t };

    ghost laws = { partial_equiv_from_equiv nat_list_eq_equiv };

    fn eq(&self, other: &Class) -> bool {
        self.members() == other.members()
    }
}

impl Eq for Class {
    ghost laws = { nat_list_eq_equiv };
}

impl fmt::Debug for Class {
    fn fmt<W: fmt::Write>(&self, f: &mut fmt::Formatter<W>) -> fmt::Result {
        fmt::Debug::fmt(&self.members, f)
    }
}
