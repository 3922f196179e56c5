//! Names and definitions that a caller constructs.
use crate::written::{check_eq, name_of, one_name, rules_of};
use sno_pattern::{Name, Names, NamesFault, Pattern, Rules, RulesFault};
use std::alloc::Global;
use std::test::Fail;

#[test]
fn a_name_is_printed_as_it_is_written(rt: HostRuntime) -> Result<(), Fail> {
    let printed = name_of("Item_1.b")?.to_string(rt.alloc())?;
    check_eq(&rt, &printed.as_str(), &"Item_1.b");
    Ok(())
}

#[test]
fn a_name_has_at_most_64_characters(rt: HostRuntime) -> Result<(), Fail> {
    let letters = vec![in rt.alloc(); b'N'; 65]?;
    let are_names = [
        Name::read(&letters[..64]).is_some(),
        Name::read(&letters).is_some(),
    ];
    check_eq(&rt, &are_names.as_slice(), &[true, false].as_slice());
    Ok(())
}

fn numbered_name(alloc: Global, number: usize) -> Result<Name, Fail> {
    let letters = format!(in alloc; "A{number}")?;
    name_of(letters.as_str())
}

// This many names: A0, A1 and so on.
fn numbered_names(alloc: Global, count: usize) -> Result<Vec<Name>, Fail> {
    let mut names = Vec::new(alloc);
    for number in 0..count {
        names.push(numbered_name(alloc, number)?)?;
    }
    Ok(names)
}

// How many names there are of a list of this length.
fn count_of(alloc: Global, names: &[Name]) -> Result<usize, NamesFault> {
    Ok(Names::new(alloc, names)?.len())
}

#[test]
fn there_are_at_most_64_definitions(rt: HostRuntime) -> Result<(), Fail> {
    let most = numbered_names(rt.alloc(), 64)?;
    let more = numbered_names(rt.alloc(), 65)?;
    let counts = [count_of(rt.alloc(), &most), count_of(rt.alloc(), &more)];
    let expected = [Ok(64), Err(NamesFault::TooMany)];
    check_eq(&rt, &counts.as_slice(), &expected.as_slice());
    Ok(())
}

// How many definitions there are, and whether they cover a reference to this one.
fn covered(rules: &Rules, number: usize) -> (usize, bool) {
    (rules.len(), rules.covers(&Pattern::Ref(number)))
}

#[test]
fn rules_cover_references_to_their_definitions(rt: HostRuntime) -> Result<(), Fail> {
    let rules = rules_of(rt.alloc(), "P", "LEN(1) *P")?;
    let found = [covered(&rules, 0), covered(&rules, 1)];
    check_eq(&rt, &found.as_slice(), &[(1, true), (1, false)].as_slice());
    Ok(())
}

// The only definition is a reference to the definition of this number.
fn reference(alloc: Global, number: usize) -> Result<Vec<Pattern>, Fail> {
    let mut bodies = Vec::new(alloc);
    bodies.push(Pattern::Ref(number))?;
    Ok(bodies)
}

// Why the definitions are refused.
fn fault_of(alloc: Global, names: Names, bodies: Vec<Pattern>) -> Result<Option<RulesFault>, Fail> {
    if names.len() == bodies.len() {
        Ok(Rules::admit(alloc, names, bodies).err())
    } else {
        Err("as many names as definitions are wanted".into())
    }
}

#[test]
fn a_reference_to_no_definition_is_refused(rt: HostRuntime) -> Result<(), Fail> {
    let bodies = reference(rt.alloc(), 3)?;
    let fault = fault_of(rt.alloc(), one_name(rt.alloc(), "P")?, bodies)?;
    check_eq(&rt, &fault, &Some(RulesFault::BadRef(0)));
    Ok(())
}
