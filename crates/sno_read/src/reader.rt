//! The reader of patterns: a method for each rule of the grammar.
ghost use Rattle.std.specs.Prelude.{◌≡◌, ℕ, List, ◌<◌, ◌≤◌, length, IfOk, Ok};
ghost use Rattle.sno_pattern.specs.Tree.{Tree, tree_of, Alt, Lit, Cond, Imm, Seq};
ghost use Rattle.sno_read.specs.Characters.{skip};
ghost use Rattle.sno_read.specs.Gives.{Gives, ◌>>=◌ as ◌and_then◌};
ghost use Rattle.sno_read.specs.Reading.{Read, place, sign_at, cursor_at, reference_at, plain_of, number_call_at, set_call_at, group_at, repetition_at, from_name_at, quotation_at, element_at, targets_at, item_at, items_at, parts_at, concatenation_at, inside};
ghost use Rattle.sno_read.specs.Views.{env_of};
ghost use Rattle.sno_read.specs.declared.characters.Following.TheVariants.{Bar, Dot, Dollar, Item};
ghost use Rattle.sno_read.specs.declared.faults.ReadFault.TheVariants.{UnknownName};

use crate::characters::{self, Following, Start};
use crate::faults::{ReadFault, Stop};
use crate::keywords::{self, Keyword, NumberCall, SetCall};
use crate::piece::Piece;
use sno_pattern::{Name, Names, Pattern, Text};
use std::alloc::Global;

/// What is needed to read a text.
#[derive(Clone, Copy)]
pub struct Reader<'a> {
    pub alloc: Global,
    /// The names of the definitions.
    pub names: &'a Names,
    /// How many of the definitions a plain name may name.
    pub earlier: usize,
    /// The length of the text.
    pub total: usize,
    /// Whether it is the text of a rule for files: then sets may have several literals.
    pub in_rule: bool,
}

// A part that is assigned: at once after a dollar sign, and later after a period.
fn assigned(sign: Following, part: Box<Pattern>, name: Name) -> Pattern
    ensures at_once { sign ≡ Dollar → tree_of result ≡ Imm (tree_of part.value) name }
    ensures later { sign ≡ Dot → tree_of result ≡ Cond (tree_of part.value) name }
{
    if matches!(sign, Following::Dollar) {
        Pattern::Imm(part, name)
    } else {
        Pattern::Cond(part, name)
    }
}

impl<'a> Reader<'a> {
    // A number in parentheses, after the name of its call.
    #[tactic(auto, unfolding(crate::specs::Reading::number_call_at))]
    fn number_call(
        &self,
        room: usize,
        call: NumberCall,
        rest: Piece<'a>,
    ) -> Result<(Pattern, Piece<'a>), Stop>
        ensures read { Gives (λ p. (tree_of p.0, p.1.characters.now)) result (number_call_at (env_of self.now) room call rest.entry.characters.now) }
        ensures shorter { IfOk result (λ p. length p.1.characters.now < length rest.entry.characters.now) }
    {
        let rest = self.open_parenthesis(room, rest)?;
        let (number, rest) = self.number(rest)?;
        let rest = self.close_parenthesis(rest)?;
        Ok((call.pattern(number), rest))
    }

    // A set in parentheses, after the name of its call.
    #[tactic(auto, unfolding(crate::specs::Reading::set_call_at))]
    fn set_call(
        &self,
        room: usize,
        call: SetCall,
        rest: Piece<'a>,
    ) -> Result<(Pattern, Piece<'a>), Stop>
        ensures read { Gives (λ p. (tree_of p.0, p.1.characters.now)) result (set_call_at (env_of self.now) room call rest.entry.characters.now) }
        ensures shorter { IfOk result (λ p. length p.1.characters.now < length rest.entry.characters.now) }
    {
        let rest = self.open_parenthesis(room, rest)?;
        let (members, rest) = self.set(rest)?;
        let rest = self.close_parenthesis(rest)?;
        Ok((call.pattern(members), rest))
    }

    // The targets of a pattern, the leftmost innermost.
    fn targets(&self, pattern: Pattern, rest: Piece<'a>) -> Result<(Pattern, Piece<'a>), Stop>
        ensures read { (n : ℕ) → length rest.entry.characters.now < n → Gives (λ p. (tree_of p.0, p.1.characters.now)) result (targets_at (env_of self.now) n (tree_of pattern) rest.entry.characters.now) }
        ensures shorter { IfOk result (λ p. length p.1.characters.now ≤ length rest.entry.characters.now) }
    {
        let follows = characters::what_follows(rest.characters);
        match follows {
            Following::Dot | Following::Dollar => {
                // Boxed at once, since an early exit drops a box by one call, and a pattern by its variants.
                let part = Box::new(self.alloc, pattern)?;
                let rest = self.sign(rest)?;
                let name = self.variable(rest)?;
                let read = self.targets(assigned(follows, part, name), rest.after_name())?;
                Ok(read)
            }
            Following::Nothing | Following::Bar | Following::Item => Ok((pattern, rest)),
        }
    }

    // A pattern and what was read after it, as one: after a bar it is the other choice, and otherwise it comes next.
    fn both(
        &self,
        sign: Following,
        first: Pattern,
        others: Result<(Pattern, Piece<'a>), Stop>,
    ) -> Result<(Pattern, Piece<'a>), Stop>
        ensures either { sign ≡ Bar → (reading : Read Tree) → Gives (λ p. (tree_of p.0, p.1.characters.now)) others.entry reading → Gives {Y = Tree × List ℕ} (λ p. (tree_of p.0, p.1.characters.now)) result (reading and_then λ y. Ok (Alt (tree_of first) y.0, y.1)) }
        ensures next { sign ≡ Item → (reading : Read Tree) → Gives (λ p. (tree_of p.0, p.1.characters.now)) others.entry reading → Gives {Y = Tree × List ℕ} (λ p. (tree_of p.0, p.1.characters.now)) result (reading and_then λ y. Ok (Seq (tree_of first) y.0, y.1)) }
        ensures shorter { (n : ℕ) → IfOk others.entry (λ p. length p.1.characters.now < n) → IfOk result (λ p. length p.1.characters.now < n) }
    {
        // Boxed at once, as in `targets`.
        let first = Box::new(self.alloc, first)?;
        let (second, rest) = others?;
        let second = Box::new(self.alloc, second)?;
        if matches!(sign, Following::Bar) {
            Ok((Pattern::Alt(first, second), rest))
        } else {
            Ok((Pattern::Seq(first, second), rest))
        }
    }

    // The pattern of these characters: a text if they are ASCII, and bytes otherwise.
    #[tactic(auto, using(crate::proofs::Ascii::text_is))]
    fn quoted(&self, content: Piece<'a>) -> Result<Pattern, Stop>
        ensures { Gives tree_of result (Ok (Lit content.entry.characters.now)) }
    {
        let characters = Vec::from_slice(self.alloc, content.characters)?;
        // Most literals are ASCII, which this sees.
        if let Ok(text) = Text::new(characters) {
            return Ok(Pattern::Lit(text));
        }
        let bytes = self.bytes(content)?;
        Ok(Pattern::Bytes(bytes))
    }

    // A literal.
    #[tactic(auto, unfolding(crate::specs::Reading::quotation_at))]
    fn quotation(&self, rest: Piece<'a>) -> Result<(Pattern, Piece<'a>), Stop>
        ensures read { Gives (λ p. (tree_of p.0, p.1.characters.now)) result (quotation_at (env_of self.now) rest.entry.characters.now) }
        ensures shorter { IfOk result (λ p. length p.1.characters.now < length rest.entry.characters.now) }
    {
        let (content, rest) = self.literal(rest)?;
        let literal = self.quoted(content)?;
        Ok((literal, rest))
    }

    // `@` and a variable.
    #[tactic(auto, unfolding(crate::specs::Reading::cursor_at))]
    fn cursor(&self, rest: Piece<'a>) -> Result<(Pattern, Piece<'a>), Stop>
        requires { 0 < length rest.characters.now }
        ensures read { Gives (λ p. (tree_of p.0, p.1.characters.now)) result (cursor_at (env_of self.now) rest.entry.characters.now) }
        ensures shorter { IfOk result (λ p. length p.1.characters.now < length rest.entry.characters.now) }
    {
        let (_sign, rest) = rest.split(1);
        let name = self.variable(rest)?;
        Ok((Pattern::At(name), rest.after_name()))
    }

    // `*` and the name of a definition.
    #[tactic(auto, unfolding(crate::specs::Reading::reference_at))]
    fn reference(&self, rest: Piece<'a>) -> Result<(Pattern, Piece<'a>), Stop>
        requires { 0 < length rest.characters.now }
        ensures read { Gives (λ p. (tree_of p.0, p.1.characters.now)) result (reference_at (env_of self.now) rest.entry.characters.now) }
        ensures shorter { IfOk result (λ p. length p.1.characters.now < length rest.entry.characters.now) }
    {
        let (_sign, rest) = rest.split(1);
        let name = self.name(rest)?;
        match self.names.place(&name) {
            Some(number) => Ok((Pattern::Ref(number), rest.after_name())),
            None => Err(Stop::Fault(ReadFault::UnknownName(self.place(rest)))),
        }
    }

    // The number of the earlier definition that a plain name names; the name begins this rest.
    #[tactic(auto, unfolding(crate::specs::Reading::plain_of))]
    fn plain(&self, name: &Name, rest: Piece<'a>) -> Result<usize, Stop>
        ensures { Gives (λ number. number) result (plain_of (env_of self.now) (UnknownName (place (env_of self.now) rest.entry.characters.now)) name.now) }
    {
        match self.names.place(name) {
            Some(number) if number < self.earlier => Ok(number),
            _ => Err(Stop::Fault(ReadFault::UnknownName(self.place(rest)))),
        }
    }

    // An alternation in parentheses.
    #[cycle(grammar)]
    #[tactic(auto, unfolding(crate::specs::Reading::group_at), using(crate::proofs::Steps::inside_step))]
    fn group(&self, room: usize, rest: Piece<'a>) -> Result<(Pattern, Piece<'a>), Stop>
        ensures read { Gives (λ p. (tree_of p.0, p.1.characters.now)) result (group_at (env_of self.now) room (inside (env_of self.now) room) rest.entry.characters.now) }
        ensures shorter { IfOk result (λ p. length p.1.characters.now < length rest.entry.characters.now) }
    {
        let rest = self.open_parenthesis(room, rest)?;
        let (pattern, rest) = self.alternation(room - 1, rest)?;
        let rest = self.close_parenthesis(rest)?;
        Ok((pattern, rest))
    }

    // What `ARBNO` repeats, after its name.
    #[cycle(grammar)]
    #[tactic(auto, unfolding(crate::specs::Reading::repetition_at))]
    fn repetition(&self, room: usize, rest: Piece<'a>) -> Result<(Pattern, Piece<'a>), Stop>
        ensures read { Gives (λ p. (tree_of p.0, p.1.characters.now)) result (repetition_at (env_of self.now) room (inside (env_of self.now) room) rest.entry.characters.now) }
        ensures shorter { IfOk result (λ p. length p.1.characters.now < length rest.entry.characters.now) }
    {
        let (pattern, rest) = self.group(room, rest)?;
        let part = Box::new(self.alloc, pattern)?;
        Ok((Pattern::Arbno(part), rest))
    }

    // What begins with a name: a word, a call or a definition.
    #[cycle(grammar)]
    #[tactic(auto, unfolding(crate::specs::Reading::from_name_at))]
    fn from_name(&self, room: usize, rest: Piece<'a>) -> Result<(Pattern, Piece<'a>), Stop>
        ensures read { Gives (λ p. (tree_of p.0, p.1.characters.now)) result (from_name_at (env_of self.now) room (inside (env_of self.now) room) rest.entry.characters.now) }
        ensures shorter { IfOk result (λ p. length p.1.characters.now < length rest.entry.characters.now) }
    {
        let name = self.name(rest)?;
        let rest_after = rest.after_name();
        match keywords::keyword_of(name.bytes()) {
            None => {
                let number = self.plain(&name, rest)?;
                Ok((Pattern::Ref(number), rest_after))
            }
            Some(Keyword::Primitive(word)) => Ok((word.pattern(), rest_after)),
            Some(Keyword::Counted(call)) => self.number_call(room, call, rest_after),
            Some(Keyword::Chosen(call)) => self.set_call(room, call, rest_after),
            Some(Keyword::Repeated) => self.repetition(room, rest_after),
        }
    }

    // An element.
    #[cycle(grammar)]
    #[tactic(auto, unfolding(crate::specs::Reading::element_at))]
    fn element(&self, room: usize, rest: Piece<'a>) -> Result<(Pattern, Piece<'a>), Stop>
        ensures read { Gives (λ p. (tree_of p.0, p.1.characters.now)) result (element_at (env_of self.now) room (inside (env_of self.now) room) rest.entry.characters.now) }
        ensures shorter { IfOk result (λ p. length p.1.characters.now < length rest.entry.characters.now) }
    {
        match characters::start_of(rest.characters) {
            Start::Quote => self.quotation(rest),
            Start::At => self.cursor(rest),
            Start::Star => self.reference(rest),
            Start::Open => self.group(room, rest),
            Start::Letter => self.from_name(room, rest),
            Start::Other => Err(self.unexpected(rest)),
        }
    }

    // An element with its targets.
    #[cycle(grammar)]
    #[tactic(auto, unfolding(crate::specs::Reading::item_at))]
    fn item(&self, room: usize, rest: Piece<'a>) -> Result<(Pattern, Piece<'a>), Stop>
        ensures read { Gives (λ p. (tree_of p.0, p.1.characters.now)) result (item_at (env_of self.now) room (inside (env_of self.now) room) rest.entry.characters.now) }
        ensures shorter { IfOk result (λ p. length p.1.characters.now < length rest.entry.characters.now) }
    {
        let (pattern, rest) = self.element(room, rest)?;
        self.targets(pattern, rest)
    }

    // Items, joined from the right.
    #[cycle(grammar)]
    fn concatenation(&self, room: usize, rest: Piece<'a>) -> Result<(Pattern, Piece<'a>), Stop>
        ensures read { (n : ℕ) → length rest.entry.characters.now < n → Gives (λ p. (tree_of p.0, p.1.characters.now)) result (items_at (env_of self.now) (item_at (env_of self.now) room (inside (env_of self.now) room)) n rest.entry.characters.now) }
        ensures shorter { IfOk result (λ p. length p.1.characters.now < length rest.entry.characters.now) }
    {
        let (pattern, rest) = self.item(room, rest)?;
        let Following::Item = characters::what_follows(rest.characters) else {
            return Ok((pattern, rest));
        };
        let others = self.concatenation(room, rest.after_blanks());
        self.both(Following::Item, pattern, others)
    }

    // What comes after a bar: an alternation.
    #[cycle(grammar)]
    fn otherwise(&self, room: usize, rest: Piece<'a>) -> Result<(Pattern, Piece<'a>), Stop>
        requires { 0 < length (skip rest.characters.now) }
        ensures read { (n : ℕ) → length rest.entry.characters.now < n → Gives (λ p. (tree_of p.0, p.1.characters.now)) result (sign_at (env_of self.now) rest.entry.characters.now and_then parts_at (env_of self.now) (concatenation_at (env_of self.now) room (inside (env_of self.now) room)) n) }
        ensures shorter { IfOk result (λ p. length p.1.characters.now < length rest.entry.characters.now) }
    {
        let rest = self.sign(rest)?;
        self.alternation(room, rest)
    }

    /// Concatenations, joined from the right.
    #[cycle(grammar)]
    pub fn alternation(&self, room: usize, rest: Piece<'a>) -> Result<(Pattern, Piece<'a>), Stop>
        ensures read { (n : ℕ) → length rest.entry.characters.now < n → Gives (λ p. (tree_of p.0, p.1.characters.now)) result (parts_at (env_of self.now) (concatenation_at (env_of self.now) room (inside (env_of self.now) room)) n rest.entry.characters.now) }
        ensures shorter { IfOk result (λ p. length p.1.characters.now < length rest.entry.characters.now) }
    {
        let (pattern, rest) = self.concatenation(room, rest)?;
        let Following::Bar = characters::what_follows(rest.characters) else {
            return Ok((pattern, rest));
        };
        let others = self.otherwise(room, rest);
        self.both(Following::Bar, pattern, others)
    }
}
