//! What a line asks for that is a statement.
ghost use Rattle.std.specs.Prelude.{◌≡◌, codes, IfOk, IfSome};
ghost use Rattle.std.specs.Option.{option_map};
ghost use Rattle.std.specs.Arc.{arc_value};
ghost use Rattle.serde_json.specs.Find.{get};
ghost use Rattle.serde_json.specs.View.{view};
ghost use Rattle.sno_statement.specs.Statement.{IsLimit};
ghost use Rattle.sno_document.specs.Bound.{IsBound};
ghost use Rattle.sno_serve.specs.Asked.{asks_at, asks_bound, asks_checked, asks_done, asks_statement, flag_in, statement_by, trials_in};
ghost use Rattle.sno_serve.specs.Binds.{bound_in, optional_seen};

use crate::binds::{Bound, bound_in};
use crate::{Asked, LineFault};
use serde_json::Value;
use sno_document::{
    Bound as BoundNames, DocumentFault, Mode, Rules, Statement, read_bound_statement,
    read_statement,
};
use sno_statement::MAX_TRIALS;
use std::alloc::{AllocError, Global};
use std::sync::Arc;

/// What a statement is read from: a line, the number that it is to have, and what its names and its limit are by.
#[derive(Drop)]
struct Source<'a> {
    rules: &'a Arc<Rules>,
    mode: Mode,
    number: u32,
    line: &'a [u8],
}

/// A statement is to be performed, at the version that the member is if there is one.
fn asks_at(version: Option<&Value>, statement: Statement) -> Asked
    ensures { result ≡ asks_at (option_map (λ v. view v.now) version.entry) statement }
{
    let Some(member) = version else {
        return Asked::Perform(statement);
    };
    match member.as_u64() {
        Some(version) => Asked::PerformAt(statement, version),
        None => Asked::Fault(LineFault::Document(DocumentFault::Shape)),
    }
}

/// The statement is to be performed, at the version that the member is if there is one, or only to be tried.
fn asks_done(check: bool, version: Option<&Value>, statement: Statement) -> Asked
    ensures { result ≡ asks_done check (option_map (λ v. view v.now) version.entry) statement }
{
    if check {
        return Asked::Check(statement);
    }
    asks_at(version, statement)
}

/// The statement that the line is, in which names may represent texts, or its fault.
fn statement_by(
    alloc: Global,
    source: &Source<'_>,
    bound: &Option<Bound>,
) -> Result<Result<Statement, DocumentFault>, AllocError>
    requires limit { IsLimit source.now.mode.trials }
    requires bound { IfSome bound.now (λ b. IsBound (arc_value source.now.rules.now).names b.names b.texts.items) }
    ensures { IfOk result (λ s. s ≡ statement_by (arc_value source.now.rules.now) source.now.mode source.now.number source.now.line.now (optional_seen bound.now)) }
{
    let Source {
        rules,
        mode,
        number,
        line,
    } = *source;
    let read = match bound {
        Some(Bound { names, texts }) => {
            let names = BoundNames {
                rules,
                names,
                texts,
            };
            read_bound_statement(alloc, names, mode, number, line)
        }
        None => read_statement(alloc, rules, mode, number, line),
    };
    match read {
        Ok(statement) => Ok(Ok(statement)),
        Err(DocumentFault::Memory) => Err(AllocError),
        Err(fault) => Ok(Err(fault)),
    }
}

/// The limit of trials of a line: the usual one, or the one that the member is.
fn trials_in(usual: u32, member: Option<&Value>) -> Result<u32, LineFault>
    requires { IsLimit usual }
    ensures value { result ≡ trials_in usual (option_map (λ v. view v.now) member.entry) }
    ensures limit { IfOk result (λ n. IsLimit n) }
{
    let Some(member) = member else {
        return Ok(usual);
    };
    match member.as_u64() {
        Some(trials) if 1 <= trials && trials <= MAX_TRIALS as u64 => Ok(trials as u32),
        _ => Err(LineFault::Trials),
    }
}

/// True or false, which a member is, if it is there.
fn flag_in(member: Option<&Value>) -> Result<bool, LineFault>
    ensures { result ≡ flag_in (option_map (λ v. view v.now) member.entry) }
{
    let Some(member) = member else {
        return Ok(false);
    };
    match member.as_bool() {
        Some(flag) => Ok(flag),
        None => Err(LineFault::Document(DocumentFault::Shape)),
    }
}

/// A statement with these texts is to be performed or tried.
fn asks_bound(
    alloc: Global,
    source: &Source<'_>,
    value: &Value,
    bound: &Option<Bound>,
) -> Result<Asked, AllocError>
    requires limit { IsLimit source.now.mode.trials }
    requires bound { IfSome bound.now (λ b. IsBound (arc_value source.now.rules.now).names b.names b.texts.items) }
    ensures { IfOk result (λ a. a ≡ asks_checked (arc_value source.now.rules.now) source.now.mode source.now.number source.now.line.now (optional_seen bound.now) (get (codes "if_version") (view value.now)) (flag_in (get (codes "check") (view value.now)))) }
{
    let check = match flag_in(value.get("check")) {
        Ok(check) => check,
        Err(fault) => return Ok(Asked::Fault(fault)),
    };
    match statement_by(alloc, source, bound)? {
        Ok(statement) => Ok(asks_done(check, value.get("if_version"), statement)),
        Err(fault) => Ok(Asked::Fault(LineFault::Document(fault))),
    }
}

/// A statement is to be performed or tried.
pub(crate) fn asks_statement(
    alloc: Global,
    rules: &Arc<Rules>,
    mode: Mode,
    number: u32,
    line: &[u8],
    value: &Value,
) -> Result<Asked, AllocError>
    requires { IsLimit mode.trials }
    ensures { IfOk result (λ a. a ≡ asks_statement (arc_value rules.now) mode number line.now (view value.now)) }
{
    let trials = match trials_in(mode.trials, value.get("trials")) {
        Ok(trials) => trials,
        Err(fault) => return Ok(Asked::Fault(fault)),
    };
    let anchor = mode.anchor;
    let source = Source {
        rules,
        mode: Mode { anchor, trials },
        number,
        line,
    };
    match bound_in(alloc, rules.names(), value.get("bind"))? {
        Ok(bound) => asks_bound(alloc, &source, value, &bound),
        Err(fault) => Ok(Asked::Fault(LineFault::Bind(fault))),
    }
}
