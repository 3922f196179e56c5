//! Checking rules, which are statements for files: in JSON, or as rows of another form.
ghost use Rattle.std.specs.Prelude.{◌≡◌, ◌≢◌, [], map, IfOk, Ok, Err, MatchOption};
ghost use Rattle.sno_document.specs.DocumentRows.{pair_seen, statement_seen};
ghost use Rattle.sno_document.specs.Rules.{AreRules, IsRules, RuleSet};
ghost use Rattle.sno_check.specs.declared.checking.TheConstants.{USUAL};
ghost use Rattle.sno_check.specs.Reports.{TellsRows, TellsRules};

use crate::checking::{USUAL, check_rows, findings_in, led_by};
use crate::rows::{Kind, rows_of_lines};
use sno_document::{DocumentFault, StatementRow, read_rules, rules_of_rows};
use sno_findings::{Collector, Form, Report};
use std::alloc::{AllocError, Global};

/// The first fault of the bytes, if they are not rules.
fn first_fault(alloc: Global, bytes: &[u8]) -> Result<Option<DocumentFault>, AllocError>
    ensures { IfOk result (λ fault. MatchOption fault ((d : RuleSet) × IsRules USUAL bytes.now (Ok d)) (λ e. IsRules USUAL bytes.now (Err e))) }
{
    match read_rules(alloc, bytes, USUAL).err() {
        None => Ok(None),
        Some(DocumentFault::Memory) => Err(AllocError),
        Some(fault) => Ok(Some(fault)),
    }
}

/// The first fault of the rows, if they are not those of rules.
fn first_fault_of_rows<'t>(
    alloc: Global,
    patterns: Vec<(&'t str, &'t str)>,
    statements: Vec<StatementRow<'t>>,
) -> Result<Option<DocumentFault>, AllocError>
    ensures { IfOk result (λ fault. MatchOption fault ((d : RuleSet) × AreRules USUAL (record { patterns = map pair_seen patterns.entry.items; texts = []; statements = map statement_seen statements.entry.items }) (Ok d)) (λ e. AreRules USUAL (record { patterns = map pair_seen patterns.entry.items; texts = []; statements = map statement_seen statements.entry.items }) (Err e))) }
{
    match rules_of_rows(alloc, patterns, statements, USUAL).err() {
        None => Ok(None),
        Some(DocumentFault::Memory) => Err(AllocError),
        Some(fault) => Ok(Some(fault)),
    }
}

/// Returns what is found in the bytes of rules, as [`check`](crate::check) does for those of a document.
///
/// Refused only if memory runs out.
pub fn check_rules(alloc: Global, bytes: &[u8]) -> Result<Report, AllocError>
    // Without an error the bytes are rules. Otherwise they are not, and the first error is their first fault.
    ensures says { IfOk result (λ report. TellsRules USUAL bytes.now report.errors.items) }
{
    let first = first_fault(alloc, bytes)?;
    let Collector {
        alloc: _,
        form: _,
        errors: found,
        warnings,
    } = findings_in(alloc, Kind::Rules, bytes)?;
    let errors = match first {
        None => Vec::new(alloc),
        Some(fault) => led_by(alloc, fault, found)?,
    };
    Ok(Report { errors, warnings })
}

/// Returns what is found in rules that are not written in JSON: in the names and patterns of their definitions, and in their
/// statements. `used` has a bit for each definition that something else than these uses, which is not reported as unused.
///
/// Refused only if memory runs out.
pub fn check_rule_rows<'t>(
    alloc: Global,
    patterns: Vec<(&'t str, &'t str)>,
    statements: Vec<StatementRow<'t>>,
    used: u64,
) -> Result<Report, AllocError>
    // Without an error the rows are those of rules. Otherwise they are not, and the first error is their first fault.
    ensures says { IfOk result (λ report. TellsRows USUAL (record { patterns = map pair_seen patterns.entry.items; texts = []; statements = map statement_seen statements.entry.items }) report.errors.items) }
{
    let mut findings = Collector::new(alloc, Form::Lines);
    let rows = rows_of_lines(alloc, &patterns, &statements, used)?;
    check_rows(&mut findings, &rows)?;
    let first = first_fault_of_rows(alloc, patterns, statements)?;
    let Collector {
        alloc: _,
        form: _,
        errors: found,
        warnings,
    } = findings;
    let errors = match first {
        None => Vec::new(alloc),
        Some(fault) => led_by(alloc, fault, found)?,
    };
    Ok(Report { errors, warnings })
}
