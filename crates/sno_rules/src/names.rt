//! Names of sets, and names that mean a literal.
ghost use Rattle.std.specs.Prelude.{◌≡◌};
ghost use Rattle.std.specs.Option.{option_map};
ghost use Rattle.std.specs.List.{find};
ghost use Rattle.sno_pattern.specs.Identifiers.{same};
ghost use Rattle.sno_rules.specs.Spelling.{defined, literal_of, members_of, ready_literal, ready_set};

/// A name that rules define, and the characters that it means as a set.
#[derive(Clone, Copy)]
pub struct SetName<'n> {
    /// The name.
    pub name: &'n [u8],
    /// The characters, if the definition is a set.
    pub members: Option<&'n [u8]>,
}

const UPPER: &[u8] = b"ABCDEFGHIJKLMNOPQRSTUVWXYZ";

const LOWER: &[u8] = b"abcdefghijklmnopqrstuvwxyz";

const DIGIT: &[u8] = b"0123456789";

const HEX: &[u8] = b"0123456789ABCDEFabcdef";

const LETTER: &[u8] = b"ABCDEFGHIJKLMNOPQRSTUVWXYZabcdefghijklmnopqrstuvwxyz";

const WORD: &[u8] = b"ABCDEFGHIJKLMNOPQRSTUVWXYZabcdefghijklmnopqrstuvwxyz0123456789_";

/// The characters of the set that every rule may use by this name.
#[tactic(auto, unfolding(crate::specs::Spelling::ready_set))]
fn ready_set<'n>(name: &[u8]) -> Option<&'n [u8]>
    ensures { option_map (λ s. s.now) result ≡ ready_set name.now }
{
    if name == b"LETTER".as_slice() {
        Some(LETTER)
    } else if name == b"UPPER".as_slice() {
        Some(UPPER)
    } else if name == b"LOWER".as_slice() {
        Some(LOWER)
    } else if name == b"DIGIT".as_slice() {
        Some(DIGIT)
    } else if name == b"HEX".as_slice() {
        Some(HEX)
    } else if name == b"BLANK".as_slice() {
        Some(b" \t")
    } else if name == b"WORD".as_slice() {
        Some(WORD)
    } else {
        None
    }
}

/// The literal that the name means in every rule.
#[tactic(auto, unfolding(crate::specs::Spelling::ready_literal))]
fn ready_literal<'n>(name: &[u8]) -> Option<&'n [u8]>
    ensures { option_map (λ s. s.now) result ≡ ready_literal name.now }
{
    if name == b"NL".as_slice() {
        Some(b"\n")
    } else if name == b"CR".as_slice() {
        Some(b"\r")
    } else if name == b"HT".as_slice() {
        Some(b"\t")
    } else {
        None
    }
}

/// What rules say of the name with these letters, if they define it: its characters, if it is a set.
fn defined<'n>(names: &[SetName<'n>], name: &[u8]) -> Option<Option<&'n [u8]>>
    ensures { option_map (λ m. option_map (λ s. s.now) m) result ≡ defined names.now name.now }
{
    names
        .iter()
        .find(|known| name == known.name)
        .map(|known| known.members)
}

/// The characters of the set with this name; `None` if there is none.
pub(crate) fn members_of<'n>(names: &[SetName<'n>], name: &[u8]) -> Option<&'n [u8]>
    ensures { option_map (λ s. s.now) result ≡ members_of names.now name.now }
{
    if let Some(members) = defined(names, name) {
        return members;
    }
    match ready_set(name) {
        Some(members) => Some(members),
        None => ready_literal(name),
    }
}

/// The literal that a name means outside a set; `None` if it means none, or rules define it.
pub(crate) fn literal_of<'n>(names: &[SetName<'n>], name: &[u8]) -> Option<&'n [u8]>
    ensures { option_map (λ s. s.now) result ≡ literal_of names.now name.now }
{
    match defined(names, name) {
        Some(_) => None,
        None => ready_literal(name),
    }
}
