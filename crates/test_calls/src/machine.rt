//! What is compiled matches many texts, references nest as deep as the longest text, and a match within the longest text is found by its limit.
use crate::written::{check_eq, no_rules, pattern_of, rules_of, text_of};
use sno_machine::{Code, Found, MatchFault, What, Workspace, compile};
use sno_pattern::{Rules, Text};
use std::alloc::Global;
use std::process::Abort;
use std::test::Fail;

// More trials than the matches here take.
const LIMIT: u32 = 1_000_000;

// Where a match begins and ends.
type Extent = (usize, usize);

// Where the match begins and ends, if there is one.
fn extent_of(found: &Found) -> Option<Extent> {
    match &found.end {
        None => None,
        Some(hit) => Some((hit.start, hit.end)),
    }
}

// The same of the first match on the text, or why none is found within this limit.
fn extent(
    alloc: Global,
    code: &Code,
    text: &Text,
    limit: u32,
) -> Result<Option<Extent>, MatchFault> {
    Ok(extent_of(&code.first(alloc, text, false, limit)?))
}

// The same for each of the texts.
fn each_extent(alloc: Global, code: &Code, texts: &[Text]) -> Result<Vec<Option<Extent>>, Fail> {
    let mut extents = Vec::new(alloc);
    for text in texts {
        extents.push(extent(alloc, code, text, LIMIT)?)?;
    }
    Ok(extents)
}

// The same where the pattern is compiled once.
fn extents(
    alloc: Global,
    rules: &Rules,
    pattern: &str,
    texts: &[Text],
) -> Result<Vec<Option<Extent>>, Fail> {
    let pattern = pattern_of(alloc, rules, pattern)?;
    each_extent(alloc, &compile(alloc, rules, &pattern)?, texts)
}

fn texts_of(alloc: Global, written: &[&str]) -> Result<Vec<Text>, Fail> {
    let mut texts = Vec::new(alloc);
    for text in written {
        texts.push(text_of(alloc, text)?)?;
    }
    Ok(texts)
}

#[test]
fn one_code_matches_many_texts(rt: HostRuntime) -> Result<(), Fail> {
    let rules = no_rules(rt.alloc())?;
    let texts = texts_of(rt.alloc(), &["xa", "c", "b"])?;
    let found = extents(rt.alloc(), &rules, "'a' | 'b'", &texts)?;
    let expected = [Some((1, 2)), None, Some((0, 1))];
    check_eq(&rt, &found.as_slice(), &expected.as_slice());
    Ok(())
}

// Where the first match on the text begins and ends, by this workspace.
fn extent_in<'a>(
    alloc: Global,
    code: &Code<'a>,
    workspace: &mut Workspace<'a>,
    text: &Text,
) -> Result<Option<Extent>, MatchFault> {
    let found = code.first_in(alloc, workspace, text, false, LIMIT)?;
    let extent = extent_of(&found);
    workspace.give_back(found);
    Ok(extent)
}

// The same for each of the texts.
fn extents_in<'a>(
    alloc: Global,
    code: &Code<'a>,
    workspace: &mut Workspace<'a>,
    texts: &[Text],
) -> Result<Vec<Option<Extent>>, Fail> {
    let mut extents = Vec::new(alloc);
    for text in texts {
        extents.push(extent_in(alloc, code, workspace, text)?)?;
    }
    Ok(extents)
}

// The same of a pattern without definitions, by one workspace.
fn extents_of(alloc: Global, pattern: &str, texts: &[Text]) -> Result<Vec<Option<Extent>>, Fail> {
    let rules = no_rules(alloc)?;
    let pattern = pattern_of(alloc, &rules, pattern)?;
    let code = compile(alloc, &rules, &pattern)?;
    extents_in(alloc, &code, &mut Workspace::new(alloc), texts)
}

// The first match leaves `'b'` at cursor 1 as a choice. The second one must not take it up.
#[test]
fn one_workspace_serves_many_matches(rt: HostRuntime) -> Result<(), Fail> {
    let texts = texts_of(rt.alloc(), &["xac", "ybx", "xb"])?;
    let found = extents_of(rt.alloc(), "'x' ('a' 'c' | 'b')", &texts)?;
    let expected = [Some((0, 3)), None, Some((0, 2))];
    check_eq(&rt, &found.as_slice(), &expected.as_slice());
    Ok(())
}

// n times `(`, an `x`, and n times `)`.
fn nested(alloc: Global, depth: usize) -> Result<Text, Fail> {
    let mut text = vec![in alloc; b'('; depth]?;
    text.push(b'x')?;
    text.extend_from_slice(vec![in alloc; b')'; depth]?.as_slice())?;
    Ok(Text::new(text)?)
}

// Where the first match of `*P RPOS(0)` on the text begins and ends.
fn nested_extent(alloc: Global, text: &Text) -> Result<Option<Extent>, Fail> {
    let rules = rules_of(alloc, "P", "'(' *P ')' | 'x'")?;
    let pattern = pattern_of(alloc, &rules, "*P RPOS(0)")?;
    let code = compile(alloc, &rules, &pattern)?;
    Ok(extent(alloc, &code, text, LIMIT)?)
}

#[test]
fn references_nest_as_deep_as_the_longest_text(rt: HostRuntime) -> Result<(), Fail> {
    let found = nested_extent(rt.alloc(), &nested(rt.alloc(), 32_767)?)?;
    check_eq(&rt, &found, &Some((0, 65_535)));
    Ok(())
}

// 65,535 times `a`, and then a `b`.
fn ended_by_b(alloc: Global) -> Result<Text, Fail> {
    let mut text = vec![in alloc; b'a'; 65_535]?;
    text.push(b'b')?;
    Ok(Text::new(text)?)
}

// The first match on the text, within this limit and within one trial less.
fn limited_by(
    alloc: Global,
    code: &Code,
    text: &Text,
    limit: u32,
) -> [Result<Option<Extent>, MatchFault>; 2] {
    [
        extent(alloc, code, text, limit),
        extent(alloc, code, text, limit.saturating_sub(1)),
    ]
}

fn limited(
    alloc: Global,
    pattern: &str,
    text: &Text,
    limit: u32,
) -> Result<[Result<Option<Extent>, MatchFault>; 2], Fail> {
    let rules = no_rules(alloc)?;
    let pattern = pattern_of(alloc, &rules, pattern)?;
    let code = compile(alloc, &rules, &pattern)?;
    Ok(limited_by(alloc, &code, text, limit))
}

// The same on a text as it is written.
fn limited_on(
    alloc: Global,
    pattern: &str,
    text: &str,
    limit: u32,
) -> Result<[Result<Option<Extent>, MatchFault>; 2], Fail> {
    limited(alloc, pattern, &text_of(alloc, text)?, limit)
}

// Checks how many trials the match takes, and where it begins and ends: one trial less refuses it.
fn check_limit(rt: &impl Abort, found: &[Result<Option<Extent>, MatchFault>; 2], expected: Extent) {
    check_eq(rt, &found[0], &Ok(Some(expected)));
    check_eq(rt, &found[1], &Err(MatchFault::TooManyTrials));
}

#[test]
fn each_start_that_is_passed_over_costs_a_trial(rt: HostRuntime) -> Result<(), Fail> {
    let found = limited(rt.alloc(), "'b'", &ended_by_b(rt.alloc())?, 65_536)?;
    check_limit(&rt, &found, (65_535, 65_536));
    Ok(())
}

// The first start takes three trials: `POS(0)` matches, `'ab'` after it doesn't, nor does `','`. The next two fail after one trial for
// each alternative. The last one takes three.
#[test]
fn a_start_past_the_place_of_pos_costs_its_trials(rt: HostRuntime) -> Result<(), Fail> {
    let found = limited_on(rt.alloc(), "(POS(0) | ',') 'ab'", "xyz,ab", 10)?;
    check_limit(&rt, &found, (3, 6));
    Ok(())
}

// Each `POS` matches at its own place alone. The starts take 2, 3, 2 and 2 trials.
#[test]
fn each_place_of_pos_is_a_start(rt: HostRuntime) -> Result<(), Fail> {
    let found = limited_on(rt.alloc(), "(POS(3) | POS(1)) 'b'", "aaabb", 9)?;
    check_limit(&rt, &found, (3, 4));
    Ok(())
}

// Six starts fail after a trial for each word, two of them before the first letters of a word. The seventh finds the first word.
#[test]
fn a_start_without_a_word_costs_a_trial_for_each(rt: HostRuntime) -> Result<(), Fail> {
    let found = limited_on(rt.alloc(), "'tod' | 'fix' | 'xyz'", "to fi todo", 19)?;
    check_limit(&rt, &found, (6, 9));
    Ok(())
}

// At the first start `'ab'` is there, but no `'z'` after it. The starts take 3, 2, 2 and 3 trials.
#[test]
fn a_word_that_leads_nowhere_is_passed(rt: HostRuntime) -> Result<(), Fail> {
    let found = limited_on(rt.alloc(), "('ab' | 'cd') 'z'", "abacdz", 10)?;
    check_limit(&rt, &found, (3, 6));
    Ok(())
}

// The first two starts take two trials each, and the third one is found by the set.
#[test]
fn a_set_beside_a_word_is_a_start(rt: HostRuntime) -> Result<(), Fail> {
    let found = limited_on(rt.alloc(), "ANY('xy') | 'ab'", "aaxb", 5)?;
    check_limit(&rt, &found, (2, 3));
    Ok(())
}

// 'w10' | 'w11' | .. | 'w79'
fn seventy_words(alloc: Global) -> Result<String, Fail> {
    let mut words = format!(in alloc; "'w10'")?;
    for number in 11..80 {
        words = format!(in alloc; "{words} | 'w{number}'")?;
    }
    Ok(words)
}

// The first start has the beginning of a word, and the second one none. Both take 70 trials, and so does the last word at the third.
#[test]
fn seventy_words_are_sought_together(rt: HostRuntime) -> Result<(), Fail> {
    let words = seventy_words(rt.alloc())?;
    let found = limited_on(rt.alloc(), words.as_str(), "w1w79", 210)?;
    check_limit(&rt, &found, (2, 5));
    Ok(())
}

// Each of the three rounds takes three trials, one of them for `RPOS(0)` before it. The last trial is for `RPOS(0)` after them.
#[test]
fn each_round_that_is_passed_costs_its_trials(rt: HostRuntime) -> Result<(), Fail> {
    let found = limited_on(rt.alloc(), "ARBNO(SPAN('ab') ',') RPOS(0)", "ab,a,b,", 10)?;
    check_limit(&rt, &found, (0, 7));
    Ok(())
}

// The second round finds no `,`. The starts take 6, 6, 2, 3 and 1 trials.
#[test]
fn a_round_without_an_end_costs_its_trials(rt: HostRuntime) -> Result<(), Fail> {
    let found = limited_on(rt.alloc(), "ARBNO(SPAN('ab') ',') RPOS(0)", "ab,a", 18)?;
    check_limit(&rt, &found, (4, 4));
    Ok(())
}

// What is assigned at once, one after the other.
fn parts_of(alloc: Global, found: &Found) -> Result<Vec<What>, Fail> {
    let mut parts = Vec::new(alloc);
    for set in found.sets.as_slice() {
        parts.push(set.what)?;
    }
    Ok(parts)
}

fn assigned_by(alloc: Global, code: &Code, text: &Text) -> Result<Vec<What>, Fail> {
    parts_of(alloc, &code.first(alloc, text, true, LIMIT)?)
}

// The same where `*S 'c'` is anchored on the text.
fn assigned(alloc: Global, rules: &Rules, text: &Text) -> Result<Vec<What>, Fail> {
    let pattern = pattern_of(alloc, rules, "*S 'c'")?;
    assigned_by(alloc, &compile(alloc, rules, &pattern)?, text)
}

#[test]
fn assignments_that_are_backed_over_stay(rt: HostRuntime) -> Result<(), Fail> {
    let rules = rules_of(rt.alloc(), "S", "LEN(1) $ C *S | ''")?;
    let found = assigned(rt.alloc(), &rules, &text_of(rt.alloc(), "abc")?)?;
    let parts = [What::Part(0, 1), What::Part(1, 2), What::Part(2, 3)];
    check_eq(&rt, &found.as_slice(), &parts.as_slice());
    Ok(())
}
