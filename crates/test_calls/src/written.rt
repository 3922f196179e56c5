//! Definitions, patterns and texts of what is written. Definitions are shared and patterns are in boxes: each place at which a function can end
//! while it holds one of them itself takes its proof seconds.
ghost use Rattle.std.specs.Prelude.{IfOk, IsTrue, length};
ghost use Rattle.sno_pattern.specs.Tree.{refs_below, tree_of};

use sno_pattern::{Name, Names, Pattern, Rules, Text};
use sno_read::{read_pattern, read_rule_pattern};
use std::alloc::Global;
use std::fmt;
use std::process::Abort;
use std::sync::Arc;
use std::test::Fail;

/// Stops the test where the value is another than the expected one.
pub(crate) fn check_eq<T: PartialEq + fmt::Debug>(rt: &impl Abort, found: &T, expected: &T) {
    assert!(rt; found == expected, "{found:?} is not {expected:?}");
}

/// The name of these letters.
pub(crate) fn name_of(letters: &str) -> Result<Name, Fail> {
    Ok(Name::read(letters.as_bytes()).ok_or("no name")?)
}

/// The text of these characters.
pub(crate) fn text_of(alloc: Global, characters: &str) -> Result<Text, Fail> {
    Ok(Text::new(Vec::from_slice(alloc, characters.as_bytes())?)?)
}

fn bodies_of(alloc: Global, names: &Names, body: &str) -> Result<Vec<Pattern>, Fail> {
    let mut bodies = Vec::new(alloc);
    bodies.push(read_pattern(alloc, names, 0, body.as_bytes())?)?;
    Ok(bodies)
}

/// The definitions, which are as many as the names.
fn admit(alloc: Global, names: Names, bodies: Vec<Pattern>) -> Result<Arc<Rules>, Fail> {
    if names.len() == bodies.len() {
        Ok(Arc::new(alloc, Rules::admit(alloc, names, bodies)?)?)
    } else {
        Err("as many names as definitions are wanted".into())
    }
}

/// The only name.
pub(crate) fn one_name(alloc: Global, name: &str) -> Result<Names, Fail> {
    Ok(Names::new(alloc, &[name_of(name)?])?)
}

/// The only definition: its name and its pattern.
pub(crate) fn rules_of(alloc: Global, name: &str, body: &str) -> Result<Arc<Rules>, Fail> {
    let bodies = bodies_of(alloc, &one_name(alloc, name)?, body)?;
    admit(alloc, one_name(alloc, name)?, bodies)
}

/// No definition.
pub(crate) fn no_rules(alloc: Global) -> Result<Arc<Rules>, Fail> {
    admit(alloc, Names::new(alloc, &[])?, Vec::new(alloc))
}

/// The pattern, if the definitions cover it.
fn covered(alloc: Global, rules: &Rules, pattern: Pattern) -> Result<Box<Pattern>, Fail>
    ensures { IfOk result (λ p. IsTrue (refs_below (length rules.now.bodies) (tree_of p.value))) }
{
    if rules.covers(&pattern) {
        Ok(Box::new(alloc, pattern)?)
    } else {
        Err("the definitions don't cover the pattern".into())
    }
}

/// The pattern, which the definitions cover.
pub(crate) fn pattern_of(alloc: Global, rules: &Rules, pattern: &str) -> Result<Box<Pattern>, Fail>
    ensures { IfOk result (λ p. IsTrue (refs_below (length rules.now.bodies) (tree_of p.value))) }
{
    let pattern = read_pattern(alloc, rules.names(), rules.len(), pattern.as_bytes())?;
    covered(alloc, rules, pattern)
}

/// The pattern of a rule, which the definitions cover.
pub(crate) fn rule_pattern_of(
    alloc: Global,
    rules: &Rules,
    pattern: &[u8],
) -> Result<Box<Pattern>, Fail>
    ensures { IfOk result (λ p. IsTrue (refs_below (length rules.now.bodies) (tree_of p.value))) }
{
    let pattern = read_rule_pattern(alloc, rules.names(), rules.len(), pattern)?;
    covered(alloc, rules, pattern)
}
