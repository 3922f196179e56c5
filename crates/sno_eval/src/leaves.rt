//! What the patterns without parts do, as events.
ghost use Rattle.std.specs.Prelude.{◌≡◌, ◌≤◌, ℕ, ◌∷◌, [], List, length, IfOk, IsTrue};
ghost use Rattle.sno_pattern.specs.Tree.{tree_of};
ghost use Rattle.sno_pattern.specs.Ends.{arb_ends, bal_ends};
ghost use Rattle.sno_pattern.specs.Results.{ends, further_ends, results_of};
ghost use Rattle.sno_pattern.specs.declared.events.Event.{Event as HappenedEvent};
ghost use Rattle.sno_eval.specs.Steps.{is_leaf};

use crate::events::{at_most_one, one_trial, push_end, push_further};
use sno_pattern::{Assign, Event, Name, Pattern, What};
use sno_primitives::{first_balanced, leaf_end};
use std::alloc::{AllocError, Global};

// What a pattern without parts does from a cursor.
#[tactic(auto, unfolding(sno_pattern::specs::Results::results_of))]
pub fn leaf(
    alloc: Global,
    text: &[u8],
    pattern: &Pattern,
    c: usize,
) -> Result<Vec<Event>, AllocError>
    requires leaf { IsTrue (is_leaf (tree_of pattern.now)) }
    requires within { c ≤ length text.now }
    ensures { (named : ℕ → ℕ → List HappenedEvent) → IfOk result (λ v. v.items ≡ results_of text.now named (tree_of pattern.now) c) }
{
    match pattern {
        Pattern::Lit(_)
        | Pattern::Bytes(_)
        | Pattern::Len(_)
        | Pattern::Pos(_)
        | Pattern::Rpos(_)
        | Pattern::Tab(_)
        | Pattern::Rtab(_)
        | Pattern::AnyOf(_)
        | Pattern::NoneOf(_)
        | Pattern::Span(_)
        | Pattern::Break(_)
        | Pattern::Rem => at_most_one(alloc, leaf_end(text, pattern, c)),
        Pattern::Arb => arb(alloc, text, c),
        Pattern::Bal => bal(alloc, text, c),
        Pattern::Fence => fence(alloc, c),
        Pattern::Abort => abort(alloc),
        Pattern::Fail => one_trial(alloc),
        Pattern::At(name) => cursor(alloc, *name, c),
        Pattern::Arbno(_)
        | Pattern::Ref(_)
        | Pattern::Seq(_, _)
        | Pattern::Alt(_, _)
        | Pattern::Cond(_, _)
        | Pattern::Imm(_, _) => unreachable!(),
    }
}

fn arb(alloc: Global, text: &[u8], c: usize) -> Result<Vec<Event>, AllocError>
    requires { c ≤ length text.now }
    ensures { IfOk result (λ v. v.items ≡ ends (arb_ends text.now c)) }
{
    let mut events = Vec::new(alloc);
    for end in c..text.len() + 1 {
        push_further(alloc, &mut events, end)?;
    }
    Ok(events)
}

fn bal(alloc: Global, text: &[u8], c: usize) -> Result<Vec<Event>, AllocError>
    requires { c ≤ length text.now }
    ensures { IfOk result (λ v. v.items ≡ ends (bal_ends text.now c)) }
{
    let events = further_bal(alloc, text, c)?;
    if events.is_empty() {
        return one_trial(alloc);
    }
    Ok(events)
}

// The ends of `BAL`, each at the cost of a trial.
fn further_bal(alloc: Global, text: &[u8], c: usize) -> Result<Vec<Event>, AllocError>
    requires { c ≤ length text.now }
    ensures { IfOk result (λ v. v.items ≡ further_ends (bal_ends text.now c)) }
{
    let mut events = Vec::new(alloc);
    let mut cursor = c;
    while let Some(end) = first_balanced(text, cursor) {
        push_further(alloc, &mut events, end)?;
        cursor = end;
    }
    Ok(events)
}

fn fence(alloc: Global, c: usize) -> Result<Vec<Event>, AllocError>
    ensures { IfOk result (λ v. v.items ≡ Event.Try ∷ Event.End c [] ∷ Event.Halt ∷ []) }
{
    let mut events = Vec::new(alloc);
    push_further(alloc, &mut events, c)?;
    events.push(Event::Halt)?;
    Ok(events)
}

fn abort(alloc: Global) -> Result<Vec<Event>, AllocError>
    ensures { IfOk result (λ v. v.items ≡ Event.Try ∷ Event.Halt ∷ []) }
{
    let mut events = one_trial(alloc)?;
    events.push(Event::Halt)?;
    Ok(events)
}

fn cursor(alloc: Global, name: Name, c: usize) -> Result<Vec<Event>, AllocError>
    ensures { IfOk result (λ v. v.items ≡ Event.Try ∷ Event.Set (record { name = name; what = What.Cursor c }) ∷ Event.End c [] ∷ []) }
{
    let mut events = one_trial(alloc)?;
    events.push(Event::Set(Assign {
        name,
        what: What::Cursor(c),
    }))?;
    push_end(alloc, &mut events, c)?;
    Ok(events)
}
