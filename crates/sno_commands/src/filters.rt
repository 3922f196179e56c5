//! `sno edit` of standard input.

use crate::edit_reports::{Show, count_fault, count_plan, put_shown, report_tally};
use crate::faults::{INPUT, ProgramFault};
use crate::streams::{read_up_to, write_all};
use sno_edit::{EditRules, FileFault, Plan, Tally, plan_file};
use sno_files::OneText;
use sno_pattern::MAX_BYTES;
use std::alloc::Global;
use std::io::{Read, Write};

/// The path under which rules for one file know standard input.
const PATH: &str = "-";

/// What is written of the text, and what became of it.
fn filtered(
    alloc: Global,
    rules: &EditRules,
    show: Option<Show>,
    text: &OneText,
    out: &mut Vec<u8>,
) -> Result<Plan, FileFault> {
    let plan = plan_file(alloc, text, rules, PATH)?;
    match show {
        None => out.extend_from_slice(plan.after.bytes())?,
        Some(show) => put_shown(alloc, show, INPUT, INPUT, &plan, out)?,
    }
    Ok(plan)
}

/// What is written of a text that stays as it was for this cause: all of it if a statement was refused on it.
fn kept_of<'t>(text: &'t OneText, fault: &FileFault) -> &'t [u8] {
    match fault {
        FileFault::Refused(_) | FileFault::Cut(_) => &text.bytes,
        _ => &[],
    }
}

/// Performs the rules on the text of standard input, and writes what they leave, or what is shown of that, to the output. A text on
/// which a statement is refused is written as it was. Returns what became of it, as of a file.
///
/// Refused with `Memory` or `Write`.
pub(crate) fn run_filter<I: Read, W: Write, E: Write>(
    alloc: Global,
    rules: &EditRules,
    show: Option<Show>,
    input: &mut I,
    output: &mut W,
    errors: &mut E,
) -> Result<Tally, ProgramFault> {
    let mut tally = Tally::of(1);
    let bytes = match read_up_to(alloc, input, MAX_BYTES) {
        Ok(bytes) => bytes,
        Err(ProgramFault::Read) => {
            let _printed = errors.writeln(format_args!("{INPUT}: read failed"));
            tally.failed = true;
            return Ok(tally);
        }
        Err(fault) => return Err(fault),
    };
    let text = OneText { bytes };
    let mut out = Vec::new(alloc);
    match filtered(alloc, rules, show, &text, &mut out) {
        Ok(plan) => {
            count_plan(alloc, rules, PATH, &plan, &mut tally, errors);
            write_all(output, &out)?;
        }
        Err(fault) => {
            count_fault(INPUT, fault, &mut tally, errors);
            if show.is_none() {
                write_all(output, kept_of(&text, &fault))?;
            }
        }
    }
    if show.is_none() {
        report_tally(alloc, &tally, 0, errors)?;
    }
    Ok(tally)
}
