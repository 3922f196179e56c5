//! What a statement does on a text.
ghost use Rattle.std.specs.Prelude.{◌≡◌, IfOk, length};
ghost use Rattle.sno_statement.specs.Passes.{all_matches};
ghost use Rattle.sno_statement.specs.Perform.{perform};
ghost use Rattle.bench_matches.specs.Effects.{effect_of_hit, effect_of_matching, effect_of_performing};

use sno_machine::{Code, Found, MatchFault, Workspace, compile};
use sno_pattern::Text;
use sno_statement::{Outcome, Pass, Statement, StatementFault, perform};
use std::alloc::{AllocError, Global};
use std::fmt;

/// What a statement does on a text. It is printed as in the line of the statement.
#[derive(Clone, Copy, Debug, PartialEq, Eq)]
pub enum Effect {
    /// The pattern matched between two cursors.
    Matched { start: usize, end: usize },
    /// The pattern did not match.
    Failed,
    /// A repeated statement matched this often.
    Repeated { matches: u32 },
    /// All matches were found, this many.
    All { matches: usize },
    /// The statement is refused.
    Refused(StatementFault),
}

impl fmt::Display for Effect {
    fn fmt<W: fmt::Write>(&self, f: &mut fmt::Formatter<W>) -> fmt::Result {
        match self {
            Effect::Matched { start, end } => write!(f, "matched {start} to {end}"),
            Effect::Failed => write!(f, "failed"),
            Effect::Repeated { matches } => write!(f, "repeated {matches}"),
            Effect::All { matches } => write!(f, "all {matches}"),
            Effect::Refused(fault) => write!(f, "{fault}"),
        }
    }
}

/// What performing the statement on the text does. Refused only if out of memory.
pub fn effect_of_performing(
    alloc: Global,
    statement: &Statement,
    text: &Text,
) -> Result<Effect, AllocError>
    ensures { IfOk result (λ effect. effect ≡ effect_of_performing (perform statement.now text.now)) }
{
    match perform(alloc, statement, text) {
        Ok(Outcome::Matched { start, end, .. }) => Ok(Effect::Matched { start, end }),
        Ok(Outcome::Failed { .. }) => Ok(Effect::Failed),
        Ok(Outcome::Repeated { matches, .. }) => Ok(Effect::Repeated { matches }),
        Ok(Outcome::All { matches, .. }) => Ok(Effect::All {
            matches: matches.len(),
        }),
        Err(StatementFault::Memory) => Err(AllocError),
        Err(fault) => Ok(Effect::Refused(fault)),
    }
}

// The effect of a match that ended so.
fn effect_of_hit(found: &Found) -> Effect
    ensures { result ≡ effect_of_hit found.now.end }
{
    match &found.end {
        Some(hit) => Effect::Matched {
            start: hit.start,
            end: hit.end,
        },
        None => Effect::Failed,
    }
}

/// What a match by the code does in a workspace, anchored as the statement says and within its limit of trials. The code has to
/// be that of the statement's pattern. Refused only if out of memory.
pub fn effect_of_matching<'a>(
    alloc: Global,
    code: &Code<'a>,
    workspace: &mut Workspace<'a>,
    statement: &Statement,
    text: &Text,
) -> Result<Effect, AllocError>
    ensures { IfOk result (λ effect. effect ≡ effect_of_matching code.now statement.now.anchored statement.now.limit text.now) }
{
    match code.first_in(
        alloc,
        workspace,
        text,
        statement.anchored(),
        statement.limit(),
    ) {
        Ok(found) => {
            let effect = effect_of_hit(&found);
            workspace.give_back(found);
            Ok(effect)
        }
        Err(MatchFault::Memory) => Err(AllocError),
        Err(MatchFault::TooManyTrials) => Ok(Effect::Refused(StatementFault::TooManyTrials)),
    }
}

/// How many matches a pass of the statement over the text has. The pattern is compiled first.
///
/// Refused: `TooManyTrials` if the pass takes more trials than the statement's limit; `Memory` if out of memory.
pub fn matches_of_pass(
    alloc: Global,
    statement: &Statement,
    text: &Text,
) -> Result<usize, StatementFault>
    ensures { IfOk result (λ matches. matches ≡ length (all_matches statement.now text.now)) }
{
    let code = compile(alloc, statement.rules(), statement.pattern())?;
    let mut pass = Pass::new(alloc, statement, &code, text);
    let matches = pass.count_left(alloc)?;
    Ok(matches as usize)
}
