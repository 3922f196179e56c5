//! Statements.
ghost use Rattle.std.specs.Prelude.{◌≡◌, length, IsTrue, IfSome, None, false};
ghost use Rattle.std.specs.Option.{option_map};
ghost use Rattle.std.specs.Arc.{arc_value};
ghost use Rattle.sno_pattern.specs.Tree.{tree_of, refs_below};
ghost use Rattle.sno_statement.specs.FileStatements.{searching, with_object_and_repeat};
ghost use Rattle.sno_statement.specs.Statement.{IsLimit, IsOneWay, IsRepeat, with_all, with_limit, with_repeat};
ghost use Rattle.sno_statement.specs.StatementPatterns.{tree_in};

use crate::statement_patterns::StatementPattern;
use sno_pattern::{Pattern, Rules, TextName};
use sno_read::Object;
use std::marker::Model;
use std::sync::Arc;

/// The limit of a statement that gives none, in trials.
pub const USUAL_TRIALS: u32 = 1_000_000;

/// The highest limit of a statement, in trials.
pub const MAX_TRIALS: u32 = 1_000_000_000;

/// The most rounds of a repeated statement.
pub const MAX_ROUNDS: u32 = 1_000;

/// A statement: a pattern to be sought in a text, and what is to replace the matched part, if anything. The definitions cover
/// the pattern: each of its references is to one of them. The methods that read take no memory.
#[derive(Drop)]
pub struct Statement {
    number: u32,
    rules: Arc<Rules>,
    pattern: StatementPattern,
    object: Option<Object>,
    text: TextName,
    anchored: bool,
    limit: u32,
    repeat: Option<u32>,
    all: bool,
}

impl Model for Statement {
    ghost use Rattle.std.specs.Prelude.{length, IsTrue, IfSome};
    ghost use Rattle.std.specs.Arc.{arc_value};
    ghost use Rattle.sno_pattern.specs.Tree.{tree_of, refs_below};
    ghost use Rattle.sno_statement.specs.Statement.{Statement, statement_code, IsLimit, IsOneWay, IsRepeat};
    ghost use Rattle.sno_statement.specs.StatementPatterns.{tree_in};

    ghost Value = { Statement };

    ghost coded = { statement_code };

    ghost view = { λ s. record {
      number = s.number;
      rules = arc_value s.rules;
      pattern = tree_in s.pattern;
      object = s.object;
      text = s.text;
      anchored = s.anchored;
      limit = s.limit;
      repeat = s.repeat;
      all = s.all;
    } };

    ghost invariant = { λ s. IsTrue (refs_below (length (arc_value s.rules).bodies) (tree_in s.pattern)) × IsLimit s.limit × IfSome s.repeat (λ r. IsRepeat s.object r) × IsOneWay s.repeat s.all };
}

impl Statement {
    /// A statement on the text with this name, of exactly these parts. It takes no memory and is never refused.
    ///
    /// - The rules have to cover the pattern (`Rules::covers`), as they do if the pattern was read with their names.
    /// - With no object it only matches.
    /// - If anchored, a match begins at cursor 0 alone.
    /// - The number is the caller's own: nothing here depends on it.
    /// - A match may have 1,000,000 trials; [`Statement::limited`] sets another limit.
    /// - It is performed once; [`Statement::repeated`] makes it repeated, and [`Statement::for_all`] makes it one for all matches.
    pub fn new(
        number: u32,
        rules: Arc<Rules>,
        pattern: Pattern,
        object: Option<Object>,
        text: TextName,
        anchored: bool,
    ) -> Statement
        requires { IsTrue (refs_below (length (arc_value rules).bodies) (tree_of pattern)) }
        ensures { result ≡ record {
          number = number;
          rules = arc_value rules;
          pattern = tree_of pattern;
          object = object;
          text = text;
          anchored = anchored;
          limit = USUAL_TRIALS;
          repeat = None;
          all = false;
        } }
    {
        let pattern = StatementPattern::Own(pattern);
        Statement::made(number, rules, pattern, object, text, anchored)
    }

    /// As [`Statement::new`], with a pattern that other statements share. It takes no memory and is never refused.
    pub fn sharing(
        number: u32,
        rules: Arc<Rules>,
        pattern: Arc<Pattern>,
        object: Option<Object>,
        text: TextName,
        anchored: bool,
    ) -> Statement
        requires { IsTrue (refs_below (length (arc_value rules).bodies) (tree_of (arc_value pattern))) }
        ensures { result ≡ record {
          number = number;
          rules = arc_value rules;
          pattern = tree_of (arc_value pattern);
          object = object;
          text = text;
          anchored = anchored;
          limit = USUAL_TRIALS;
          repeat = None;
          all = false;
        } }
    {
        let pattern = StatementPattern::Shared(pattern);
        Statement::made(number, rules, pattern, object, text, anchored)
    }

    fn made(
        number: u32,
        rules: Arc<Rules>,
        pattern: StatementPattern,
        object: Option<Object>,
        text: TextName,
        anchored: bool,
    ) -> Statement
        requires { IsTrue (refs_below (length (arc_value rules).bodies) (tree_in pattern)) }
        ensures { result ≡ record {
          number = number;
          rules = arc_value rules;
          pattern = tree_in pattern;
          object = object;
          text = text;
          anchored = anchored;
          limit = USUAL_TRIALS;
          repeat = None;
          all = false;
        } }
    {
        Statement {
            number,
            rules,
            pattern,
            object,
            text,
            anchored,
            limit: USUAL_TRIALS,
            repeat: None,
            all: false,
        }
    }

    /// What this statement finds, its object, and how often it is repeated at most.
    pub(crate) fn split(self) -> (Statement, Option<Object>, Option<u32>)
        ensures search { result.0 ≡ searching self }
        ensures object { result.1 ≡ self.object }
        ensures repeat { result.2 ≡ self.repeat }
        ensures within { IfSome self.repeat (λ r. IsRepeat self.object r) }
        ensures one_way { IsOneWay self.repeat self.all }
    {
        let mut search = self;
        let repeat = search.repeat.take();
        let object = search.object.take();
        (search, object, repeat)
    }

    /// This statement with this object, repeated at most this often if at all.
    pub(crate) fn replacing(self, object: Option<Object>, repeat: Option<u32>) -> Statement
        requires repeat { IfSome repeat (λ r. IsRepeat object r) }
        requires one_way { IsOneWay repeat self.all }
        ensures { result ≡ with_object_and_repeat self object repeat }
    {
        let mut replacing = self;
        replacing.object = object;
        replacing.repeat = repeat;
        replacing
    }

    /// This statement with this limit: how many trials a match may have, 1 to 1,000,000,000. It takes no memory and is never refused.
    pub fn limited(self, limit: u32) -> Statement
        requires { IsLimit limit }
        ensures { result ≡ with_limit self limit }
    {
        let mut limited = self;
        limited.limit = limit;
        limited
    }

    /// This statement in at most `rounds` rounds, 1 to 1,000. It has to have an object. Each round after the first is performed
    /// on the new text of the round before. It is then not for all matches. It takes no memory and is never refused.
    pub fn repeated(self, rounds: u32) -> Statement
        requires { IsRepeat self.object rounds }
        ensures { result ≡ with_repeat self rounds }
    {
        let mut repeated = self;
        repeated.repeat = Some(rounds);
        repeated.all = false;
        repeated
    }

    /// This statement for all matches, in one pass over the text. It is then not repeated. It takes no memory and is never refused.
    pub fn for_all(self) -> Statement
        ensures { result ≡ with_all self }
    {
        let mut statement = self;
        statement.repeat = None;
        statement.all = true;
        statement
    }

    /// The caller's number, as it was given.
    pub fn number(&self) -> u32
        ensures { result ≡ self.now.number }
    {
        self.number
    }

    /// The definitions. They cover the pattern.
    pub fn rules(&self) -> &Rules
        ensures value { result.now ≡ self.now.rules }
        ensures covered { IsTrue (refs_below (length self.now.rules.bodies) self.now.pattern) }
    {
        &self.rules
    }

    /// The pattern.
    pub fn pattern(&self) -> &Pattern
        ensures { tree_of result.now ≡ self.now.pattern }
    {
        self.pattern.as_pattern()
    }

    /// The object, if the statement replaces; `None` if it only matches.
    pub fn object(&self) -> Option<&Object>
        ensures { option_map (λ o. o.now) result ≡ self.now.object }
    {
        self.object.as_ref()
    }

    /// The name of the text that the statement is for. `perform` gets the text itself and does not look at the name.
    pub fn text(&self) -> &TextName
        ensures { result.now ≡ self.now.text }
    {
        &self.text
    }

    /// Whether a match begins at cursor 0 alone.
    pub fn anchored(&self) -> bool
        ensures { result ≡ self.now.anchored }
    {
        self.anchored
    }

    /// How many trials a match may have, 1 to 1,000,000,000. In a repeated statement this is the limit for the match of each round.
    /// In a statement for all matches it is the limit for all searches together.
    pub fn limit(&self) -> u32
        ensures value { result ≡ self.now.limit }
        ensures within { IsLimit self.now.limit }
    {
        self.limit
    }

    /// How many rounds there may be, 1 to 1,000, if the statement is repeated; then it has an object. `None` if it is performed once.
    pub fn repeat(&self) -> Option<u32>
        ensures value { result ≡ self.now.repeat }
        ensures within { IfSome self.now.repeat (λ r. IsRepeat self.now.object r) }
    {
        self.repeat
    }

    /// Whether the statement is for all matches; then it isn't repeated.
    pub fn is_for_all(&self) -> bool
        ensures value { result ≡ self.now.all }
        ensures one_way { IsOneWay self.now.repeat self.now.all }
    {
        self.all
    }
}
