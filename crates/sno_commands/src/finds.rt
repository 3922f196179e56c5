//! `sno find`.

use crate::contexts::{Around, Last, LineStart, line_end, line_start};
use crate::faults::{MISUSED, ProgramFault, name_of};
use crate::find_options::{FindRequest, Shown};
use crate::first_matches::have_match;
use crate::found_files::found_files;
use crate::given_lines::NoRules;
use crate::progress::Progress;
use crate::rule_lines::rules_of_lines;
use crate::searches::Search;
use crate::shared_files::SHARE;
use crate::shared_finds::find_shared;
use crate::streams::{read_up_to, write_all};
use crate::thread_options::thread_count;
use crate::variables::has_variable;
use sno_edit::{EditRules, FileFault, FileStatementFault, Folder, ReadFault, RefusedStatement};
use sno_files::{Listed, Part, ReadOnly, Reason, text_bytes};
use sno_find::{FindFault, Finding, SpanValue, count_in, find_in, put_count, put_json, put_line};
use sno_pattern::{ByteText, MAX_BYTES, Name};
use std::alloc::{AllocError, Global};
use std::fs::File;
use std::io::{Read, Write};
use std::mem;
use std::rt::Files;
use std::thread::Threads;

/// The status if something was found.
const FOUND: u8 = 0;

/// The status if nothing was found.
const NOTHING_FOUND: u8 = 1;

/// The status if the rules are no rules, or nothing is known of a file.
const TROUBLE: u8 = 2;

/// How many bytes are gathered before they are written.
const PIECE: usize = 65_536;

/// What became of the files so far.
#[derive(Clone, Copy)]
pub(crate) struct Sought {
    /// Whether one has a match.
    pub(crate) found: bool,
    /// Whether of one nothing is known.
    failed: bool,
}

/// Why nothing is found in a file.
fn fault_of(fault: FindFault) -> FileFault {
    match fault {
        FindFault::Memory => FileFault::Memory,
        FindFault::TooManyTrials(statement) => FileFault::from(RefusedStatement {
            statement,
            fault: FileStatementFault::TooManyTrials,
        }),
        FindFault::HistoryTooLong(statement) => FileFault::from(RefusedStatement {
            statement,
            fault: FileStatementFault::HistoryTooLong,
        }),
    }
}

/// The bytes of standard input.
fn input_bytes<I: Read>(alloc: Global, input: &mut I) -> Result<Vec<u8>, ReadFault> {
    match read_up_to(alloc, input, MAX_BYTES) {
        Ok(bytes) => Ok(bytes),
        Err(ProgramFault::Memory) => Err(ReadFault::Memory),
        Err(_) => Err(ReadFault::Failed(std::io::ErrorKind::Other)),
    }
}

/// These bytes as a text.
fn text_of(bytes: Vec<u8>) -> Result<ByteText, FileFault> {
    match ByteText::new(bytes) {
        Ok(text) => Ok(text),
        Err(_) => Err(FileFault::TooLong),
    }
}

/// Adds the value of a variable as a line; nothing if the match didn't assign it.
fn put_value(
    alloc: Global,
    name: &Name,
    finding: &Finding<'_>,
    out: &mut Vec<u8>,
) -> Result<(), AllocError> {
    match finding.bindings.value(name) {
        None => return Ok(()),
        Some(SpanValue::Bytes(bytes)) => out.extend_from_slice(bytes)?,
        Some(SpanValue::Number(number)) => {
            out.extend_from_slice(number.to_string(alloc)?.as_bytes())?;
        }
    }
    out.push(b'\n')?;
    Ok(())
}

/// Adds what is shown of one match.
fn put_finding(
    alloc: Global,
    shown: Shown<'_>,
    path: &str,
    text: &ByteText,
    finding: &Finding<'_>,
    out: &mut Vec<u8>,
) -> Result<(), AllocError> {
    match shown {
        Shown::Lines(_) => put_line(alloc, path, text, finding, out),
        Shown::Json => put_json(alloc, path, text, finding, out),
        Shown::Only(name) => match Name::read(name.as_bytes()) {
            Some(name) => put_value(alloc, &name, finding, out),
            None => Ok(()),
        },
        Shown::Paths | Shown::Counts => Ok(()),
    }
}

/// Writes what was added, and takes it away, once it is long: so that lines with many matches don't fill the memory.
fn pass_on<W: Write>(alloc: Global, out: &mut Vec<u8>, output: &mut W) -> Result<(), ProgramFault> {
    if out.len() < PIECE {
        return Ok(());
    }
    let full = mem::replace(out, Vec::new(alloc));
    write_all(output, &full)
}

/// Writes what is shown of each of the matches in a file.
fn write_each<W: Write>(
    alloc: Global,
    shown: Shown<'_>,
    path: &str,
    text: &ByteText,
    findings: &[Finding<'_>],
    output: &mut W,
) -> Result<(), ProgramFault> {
    let mut out = Vec::new(alloc);
    for finding in findings {
        put_finding(alloc, shown, path, text, finding, &mut out)?;
        pass_on(alloc, &mut out, output)?;
    }
    write_all(output, &out)
}

/// Writes the lines of the matches in a file with the lines around them. `grouped` says whether there were others before.
fn write_groups<W: Write>(
    alloc: Global,
    around: Around<'_>,
    text: &ByteText,
    findings: &[Finding<'_>],
    grouped: bool,
    output: &mut W,
) -> Result<(), ProgramFault> {
    let bytes = around.bytes;
    let mut out = Vec::new(alloc);
    let mut last = Last { line: 0, end: 0 };
    for finding in findings {
        let line = finding.start.line;
        if last.line < line {
            let start = line_start(bytes, finding.start.place);
            let others = grouped || last.line > 0;
            let next = LineStart { line, start };
            around.put_between(alloc, last, next, others, &mut out)?;
            last = Last {
                line,
                end: line_end(bytes, start),
            };
        }
        put_line(alloc, around.path, text, finding, &mut out)?;
        pass_on(alloc, &mut out, output)?;
    }
    around.put_after(alloc, last, &mut out)?;
    write_all(output, &out)
}

/// Writes what is shown of the matches in a file.
fn write_findings<R: Files<File = File>, W: Write>(
    search: &Search<'_, R>,
    path: &str,
    text: &ByteText,
    findings: &[Finding<'_>],
    grouped: bool,
    output: &mut W,
) -> Result<(), ProgramFault> {
    let alloc = search.alloc;
    let called = name_of(path);
    match search.shown {
        Shown::Lines(Some(context)) if !findings.is_empty() => {
            let bytes = text.bytes();
            let around = Around {
                path: called,
                bytes,
                context,
            };
            write_groups(alloc, around, text, findings, grouped, output)
        }
        shown => write_each(alloc, shown, called, text, findings, output),
    }
}

/// Writes the path of a file that has a match, and returns whether it has.
fn write_path<R: Files<File = File>, W: Write>(
    search: &Search<'_, R>,
    path: &str,
    text: &ByteText,
    output: &mut W,
) -> Result<bool, NotFound> {
    let found = have_match(search.alloc, search.rules, path, text)?;
    if found {
        write_all(output, name_of(path).as_bytes())?;
        write_all(output, b"\n")?;
    }
    Ok(found)
}

/// Writes how many matches a file has.
fn write_count<W: Write>(
    alloc: Global,
    path: &str,
    count: usize,
    output: &mut W,
) -> Result<(), ProgramFault> {
    let mut out = Vec::new(alloc);
    put_count(alloc, name_of(path), count, &mut out)?;
    write_all(output, &out)
}

/// Counts the matches in a text, writes how many there are, and returns whether there is one.
fn count_text<R: Files<File = File>, W: Write>(
    search: &Search<'_, R>,
    path: &str,
    text: &ByteText,
    output: &mut W,
) -> Result<bool, NotFound> {
    match count_in(search.alloc, search.rules, path, text) {
        Ok(count) => {
            write_count(search.alloc, path, count, output)?;
            Ok(count > 0)
        }
        Err(fault) => Err(NotFound::File(fault_of(fault))),
    }
}

/// Why nothing is shown of a file.
#[derive(Clone, Copy)]
pub(crate) enum NotFound {
    /// Nothing is known of it.
    File(FileFault),
    /// The program has to end.
    Program(ProgramFault),
}

impl From<FileFault> for NotFound {
    fn from(fault: FileFault) -> NotFound {
        NotFound::File(fault)
    }
}

impl From<ProgramFault> for NotFound {
    fn from(fault: ProgramFault) -> NotFound {
        NotFound::Program(fault)
    }
}

/// Writes what is shown of a text, and returns whether it has a match.
fn find_text<R: Files<File = File>, W: Write>(
    search: &Search<'_, R>,
    path: &str,
    text: &ByteText,
    grouped: bool,
    output: &mut W,
) -> Result<bool, NotFound> {
    match search.shown {
        Shown::Paths => return write_path(search, path, text, output),
        Shown::Counts => return count_text(search, path, text, output),
        _ => {}
    }
    let findings = match find_in(search.alloc, search.rules, path, text) {
        Ok(findings) => findings,
        Err(fault) => return Err(NotFound::File(fault_of(fault))),
    };
    write_findings(search, path, text, &findings, grouped, output)?;
    Ok(!findings.is_empty())
}

/// Writes what is shown of a file, and returns whether it has a match. `grouped` says whether there were lines of other files before.
pub(crate) fn find_file<R: Files<File = File>, W: Write>(
    search: &Search<'_, R>,
    path: &str,
    grouped: bool,
    output: &mut W,
) -> Result<bool, NotFound> {
    let Some(bytes) = read_file(search, path)? else {
        return Ok(false);
    };
    let text = text_of(bytes)?;
    find_text(search, path, &text, grouped, output)
}

/// The bytes of a file; `None` if it is left out, since it is of a folder and not text.
fn read_file<R: Files<File = File>>(
    search: &Search<'_, R>,
    path: &str,
) -> Result<Option<Vec<u8>>, FileFault> {
    let rt = search.rt;
    if search.in_folder {
        let bytes = text_bytes(rt, search.alloc, path, MAX_BYTES)?;
        return Ok(bytes);
    }
    let bytes = ReadOnly { rt }.read(search.alloc, path, MAX_BYTES)?;
    Ok(Some(bytes))
}

/// Writes what is shown of standard input, and returns whether it has a match.
fn find_input<R: Files<File = File>, I: Read, W: Write>(
    search: &Search<'_, R>,
    grouped: bool,
    input: &mut I,
    output: &mut W,
) -> Result<bool, NotFound> {
    let bytes = match input_bytes(search.alloc, input) {
        Ok(bytes) => bytes,
        Err(fault) => return Err(NotFound::File(FileFault::from(fault))),
    };
    let text = text_of(bytes)?;
    find_text(search, "-", &text, grouped, output)
}

/// Writes what is shown of the file with this path, or of standard input for `-`, and returns whether it has a match.
pub(crate) fn find_named<R: Files<File = File>, I: Read, W: Write>(
    search: &Search<'_, R>,
    path: &str,
    grouped: bool,
    input: &mut I,
    output: &mut W,
) -> Result<bool, NotFound> {
    if path == "-" {
        return find_input(search, grouped, input, output);
    }
    find_file(search, path, grouped, output)
}

/// Notes what became of a file; why nothing is known of it goes to `errors`. Refused as the program has to end.
pub(crate) fn keep<E: Write>(
    path: &str,
    found: Result<bool, NotFound>,
    sought: &mut Sought,
    errors: &mut E,
) -> Result<(), ProgramFault> {
    match found {
        Ok(found) => sought.found = sought.found || found,
        Err(NotFound::Program(fault)) => return Err(fault),
        Err(NotFound::File(fault)) => {
            sought.failed = true;
            let called = name_of(path);
            let reason = Reason(fault);
            let _printed = errors.writeln(format_args!("{called}: {reason}"));
        }
    }
    Ok(())
}

/// Seeks the rules in each file, and writes what is shown of it.
fn find_each<R: Files<File = File>, I: Read, W: Write, E: Write>(
    search: &Search<'_, R>,
    paths: &[&str],
    sought: &mut Sought,
    input: &mut I,
    output: &mut W,
    errors: &mut E,
) -> Result<(), ProgramFault> {
    for path in paths {
        let grouped = sought.found;
        let found = find_named(search, path, grouped, input, output);
        keep(path, found, sought, errors)?;
    }
    Ok(())
}

/// Seeks the rules in these files, by threads if there are several, and writes what is shown of each.
fn find_share<R: Files<File = File, Dir: Send> + Threads + Sync, I: Read, W: Write, E: Write>(
    search: &Search<'_, R>,
    paths: &[&str],
    sought: &mut Sought,
    input: &mut I,
    output: &mut W,
    errors: &mut E,
) -> Result<(), ProgramFault> {
    if search.threads > 1 && paths.len() > 1 {
        return find_shared(search, paths, sought, input, output, errors);
    }
    find_each(search, paths, sought, input, output, errors)
}

/// Seeks the rules in files that were named together, or in those of a folder, as the search says, and writes what is shown of each.
fn find_part<R: Files<File = File, Dir: Send> + Threads + Sync, I: Read, W: Write, E: Write>(
    search: &Search<'_, R>,
    part: &Part,
    sought: &mut Sought,
    input: &mut I,
    output: &mut W,
    errors: &mut Progress<'_, E>,
) -> Result<(), ProgramFault> {
    let files = part.lent(search.alloc)?;
    for share in files.chunks(search.threads.saturating_mul(SHARE).max(1)) {
        find_share(search, share, sought, input, output, errors)?;
        errors.add(share.len());
    }
    Ok(())
}

/// Seeks the rules in the files, and writes what is shown of each.
fn find_all<R: Files<File = File, Dir: Send> + Threads + Sync, I: Read, W: Write, E: Write>(
    search: &Search<'_, R>,
    listed: &Listed,
    input: &mut I,
    output: &mut W,
    errors: &mut Progress<'_, E>,
) -> Result<Sought, ProgramFault> {
    let mut sought = Sought {
        found: false,
        failed: !listed.unread.is_empty(),
    };
    errors.begin(listed.count());
    for part in &listed.parts {
        let within = search.in_part(part.in_folder);
        find_part(&within, part, &mut sought, input, output, errors)?;
    }
    Ok(sought)
}

/// The status for what was found in the files.
fn status_of(sought: Sought) -> u8 {
    if sought.failed {
        TROUBLE
    } else if sought.found {
        FOUND
    } else {
        NOTHING_FOUND
    }
}

/// The name of `--only`, if no rule has a variable with that name.
fn unknown_variable<'s>(rules: &EditRules, shown: Shown<'s>) -> Option<&'s str> {
    match shown {
        Shown::Only(name) if !has_variable(rules, name) => Some(name),
        _ => None,
    }
}

/// Writes that no rule has the variable with this name, and returns the status.
fn refuse_variable<E: Write>(name: &str, errors: &mut E) -> u8 {
    let _printed = errors.writeln(format_args!(
        "error: '--only {name}': no rule has this variable\n\nFor more information, try '--help'."
    ));
    MISUSED
}

/// Shows what rules match in files and returns the status, as `grep` does: 2 if the rules are no rules or nothing is known of a
/// file, otherwise 0 if something was found, and 1 if not. It is 3 if the variable that is to be shown is in no rule; then nothing
/// was read but the rules.
///
/// Refused with `Write` or `Memory`.
pub(crate) fn run_find<
    R: Files<File = File, Dir: Send> + Threads + AllocGlobal + Clone + Drop + Sync,
    I: Read,
    W: Write,
    E: Write,
>(
    rt: &R,
    alloc: Global,
    request: &FindRequest<'_>,
    input: &mut I,
    output: &mut W,
    errors: &mut Progress<'_, E>,
) -> Result<u8, ProgramFault> {
    let rules = match rules_of_lines(rt, alloc, &request.lines, request.anchor, request.trials) {
        Ok(rules) => rules,
        Err(NoRules::Fault(fault)) => return Err(fault),
        Err(NoRules::Refused(text) | NoRules::Unread(text)) => {
            let _printed = write_all(errors, text.as_bytes());
            return Ok(TROUBLE);
        }
    };
    if let Some(name) = unknown_variable(&rules, request.shown) {
        return Ok(refuse_variable(name, errors));
    }
    let threads = thread_count(rt, request.threads);
    let Some(listed) = found_files(rt, alloc, &request.files, threads, input, errors)? else {
        return Ok(TROUBLE);
    };
    let search = Search {
        rt,
        alloc,
        rules: &rules,
        shown: request.shown,
        threads,
        in_folder: false,
    };
    let sought = find_all(&search, &listed, input, output, errors)?;
    Ok(status_of(sought))
}
