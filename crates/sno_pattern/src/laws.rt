//! Laws of matching. Each function does nothing: its contract is the law.
ghost use Rattle.sno_pattern.specs.NameList.{RepeatsAreFound};
ghost use Rattle.sno_pattern.specs.Laws.{CyclesAreUnguarded, DepthIsEnough, EndsLieAtOrPast, MissingCostsOne, NowhereCostsEachStart, OutcomeIsSettled, Repetition, TakingMovesOn, TrialsAreSettled};

/// Every end of a match is at or past the cursor where the match begins, and within the text.
pub fn ends_lie_at_or_past_the_cursor()
    ensures { EndsLieAtOrPast }
{}

/// Every end of a part that takes a character, by the rule of admission, is past the cursor where the part begins.
pub fn a_part_that_takes_ends_past_its_cursor()
    ensures { TakingMovesOn }
{}

/// `ARBNO(P)` is `'' | P ARBNO(P)`, except that a round that takes no character is dropped.
pub fn a_repetition_is_null_or_goes_on()
    ensures { Repetition }
{}

/// If the definitions are guarded, a pattern does the same from a cursor at every depth of at least `enough_depth`.
pub fn a_greater_depth_gives_nothing_more()
    ensures { DepthIsEnough }
{}

/// If the definitions are guarded, a match has the same outcome at every depth of at least `enough_depth`.
pub fn a_greater_depth_changes_no_outcome()
    ensures { OutcomeIsSettled }
{}

/// If the definitions are guarded, a match takes the same number of trials at every depth of at least `enough_depth`.
pub fn a_greater_depth_takes_no_more_trials()
    ensures { TrialsAreSettled }
{}

/// If a pattern begins with a literal that isn't at the cursor, it costs one trial there and does nothing else.
pub fn a_missing_literal_costs_one_trial()
    ensures { MissingCostsOne }
{}

/// If a pattern begins with a literal that is nowhere in the text, a floating match costs one trial for each start.
pub fn a_literal_that_stands_nowhere_costs_one_trial_a_start()
    ensures { NowhereCostsEachStart }
{}

/// Definitions with a cycle, of the kind in `RulesFault::Unguarded`, are not guarded.
pub fn definitions_with_a_cycle_are_not_guarded()
    ensures { CyclesAreUnguarded }
{}

/// `first_repeat`, by which repeated names are refused, is `None` exactly if no name is repeated.
pub fn repeats_are_found()
    ensures { RepeatsAreFound }
{}
