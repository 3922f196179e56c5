//! Lines that are a statement and nothing else, which most lines are. They are read once: what they ask for is seen in the tree of their
//! JSON, whose strings are borrowed from the line.
ghost use Rattle.std.specs.Prelude.{◌≡◌, codes, false, IfOk, IfSome, IsTrue, None, Some};
ghost use Rattle.std.specs.Arc.{arc_value};
ghost use Rattle.std.specs.Option.{option_map};
ghost use Rattle.serde_json.specs.Find.{get};
ghost use Rattle.serde_json.specs.View.{view};
ghost use Rattle.sno_statement.specs.Statement.{IsLimit};
ghost use Rattle.sno_document.specs.Json.{json_of};
ghost use Rattle.sno_document.specs.Single.{statement_in};
ghost use Rattle.sno_document.specs.Trees.{tree_seen};
ghost use Rattle.sno_serve.specs.Asked.{asked_in, asks_read_statement, id_in, id_or_none};
ghost use Rattle.sno_serve.specs.PlainLines.{IsPlain};

use crate::{Asked, Line, LineFault};
use json::{Scratch, Value as Tree};
use serde_json::Value;
use sno_document::{DocumentFault, Mode, Rules, member, statement_of_tree, tree_in, whole_in};
use std::alloc::{AllocError, Global};
use std::sync::Arc;

/// The members of a line that is a statement and nothing else.
const PLAIN: [&str; 7] = [
    "id", "text", "pattern", "object", "anchored", "repeat", "all",
];

/// Whether an object has only members that a plain line may have.
fn has_plain_names(tree: &Tree<'_>) -> bool {
    let Tree::Object(members) = tree else {
        return false;
    };
    for (name, _) in members {
        if !PLAIN.contains(name) {
            return false;
        }
    }
    true
}

/// Whether there is no such member.
fn lacks(tree: &Tree<'_>, key: &str) -> bool
    ensures { IsTrue result → get key.now (tree_seen tree.now) ≡ None }
{
    member(tree, key).is_none()
}

/// Whether a line asks for nothing but a statement.
fn asks_nothing_else(tree: &Tree<'_>) -> bool
    ensures { IsTrue result → (get (codes "read") (tree_seen tree.now) ≡ None) × (get (codes "since") (tree_seen tree.now) ≡ None) × (get (codes "texts") (tree_seen tree.now) ≡ None) }
{
    lacks(tree, "read") && lacks(tree, "since") && lacks(tree, "texts")
}

/// Whether a statement says nothing of its limit, of bound names, of a check and of a version.
fn has_no_terms(tree: &Tree<'_>) -> bool
    ensures { IsTrue result → (get (codes "trials") (tree_seen tree.now) ≡ None) × (get (codes "bind") (tree_seen tree.now) ≡ None) × (get (codes "check") (tree_seen tree.now) ≡ None) × (get (codes "if_version") (tree_seen tree.now) ≡ None) }
{
    lacks(tree, "trials")
        && lacks(tree, "bind")
        && lacks(tree, "check")
        && lacks(tree, "if_version")
}

/// Whether a line is a statement and nothing else.
fn is_plain(tree: &Tree<'_>) -> bool
    ensures { IsTrue result → IsPlain (tree_seen tree.now) }
{
    has_plain_names(tree) && asks_nothing_else(tree) && has_no_terms(tree)
}

/// The id that a member is, if it is a string or a whole number.
fn plain_id_of(alloc: Global, member: &Tree<'_>) -> Result<Option<Value>, AllocError>
    ensures { IfOk result (λ id. IfSome id (λ v. Some (view v) ≡ id_or_none (Some (tree_seen member.now)))) }
{
    match member {
        Tree::String(text) => {
            let id = Value::try_from_str(alloc, text)?;
            Ok(Some(id))
        }
        Tree::Number(text) => match whole_in(text) {
            Some(whole) => Ok(Some(Value::from(whole))),
            None => Ok(None),
        },
        _ => Ok(None),
    }
}

/// The id of a line, if it has none, or one that is a string or a whole number.
fn plain_id(alloc: Global, tree: &Tree<'_>) -> Result<Option<Option<Value>>, AllocError>
    ensures { IfOk result (λ id. IfSome id (λ i. option_map view i ≡ id_or_none (get (codes "id") (tree_seen tree.now)))) }
{
    let Some(member) = member(tree, "id") else {
        return Ok(Some(None));
    };
    match plain_id_of(alloc, member)? {
        Some(id) => Ok(Some(Some(id))),
        None => Ok(None),
    }
}

/// What a line asks for that is a statement.
fn plain_asked(
    alloc: Global,
    rules: &Arc<Rules>,
    mode: Mode,
    number: u32,
    line: &[u8],
    tree: &Tree<'_>,
) -> Result<Asked, AllocError>
    requires limit { IsLimit mode.trials }
    requires tree { json_of line.now ≡ Some (tree_seen tree.now) }
    ensures { IfOk result (λ a. a ≡ asks_read_statement false None (statement_in (arc_value rules.now) mode number line.now)) }
{
    match statement_of_tree(alloc, rules, mode, number, line, tree) {
        Ok(statement) => Ok(Asked::Perform(statement)),
        Err(DocumentFault::Memory) => Err(AllocError),
        Err(fault) => Ok(Asked::Fault(LineFault::Document(fault))),
    }
}

/// The line, if it is a statement and nothing else.
#[tactic(auto, using(crate::proofs::PlainLines::plain_asks, crate::proofs::PlainLines::id_of))]
pub(crate) fn plain_line(
    alloc: Global,
    rules: &Arc<Rules>,
    mode: Mode,
    number: u32,
    line: &[u8],
) -> Result<Option<Line>, AllocError>
    requires { IsLimit mode.trials }
    ensures { IfOk result (λ l. IfSome l (λ read. (option_map view read.id ≡ id_in line.now) × (read.asked ≡ asked_in (arc_value rules.now) mode number line.now))) }
{
    let mut scratch = Scratch::new(alloc);
    let Some(tree) = tree_in(alloc, line, &mut scratch)? else {
        return Ok(None);
    };
    if !is_plain(&tree) {
        return Ok(None);
    }
    let Some(id) = plain_id(alloc, &tree)? else {
        return Ok(None);
    };
    let asked = plain_asked(alloc, rules, mode, number, line, &tree)?;
    Ok(Some(Line {
        id,
        asked,
        ignored: Vec::new(alloc),
    }))
}
