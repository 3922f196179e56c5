//! `sno edit`.
ghost use Rattle.std.specs.Prelude.{◌≡◌, ◌≤◌, ◌<◌};
ghost use Rattle.sno_commands.specs.declared.thread_options.TheConstants.{MAX_THREADS};

use crate::colours::has_colours;
use crate::edit_options::{EditOptions, EditRequest};
use crate::edit_reports::{
    Form, Show, count_fault, count_plan, put_end, put_shown, report_fault, report_tally,
};
use crate::editors::Editor;
use crate::faults::{FAILED, ProgramFault, name_of};
use crate::filters::run_filter;
use crate::found_files::found_files;
use crate::given_lines::NoRules;
use crate::match_rows::write_plan_rows;
use crate::progress::Progress;
use crate::rounds_left::report_stopped_in;
use crate::row_edits::edit_with_rows;
use crate::rule_lines::rules_of_lines;
use crate::shared_edits::{Seen, edit_shared, see_shared};
use crate::shared_files::SHARE;
use crate::streams::{read_up_to, write_all};
use crate::thread_options::thread_count;
use crate::unassigned::{Unassigned, unassigned_in};
use sno_check::{Warning, member_warnings};
use sno_document::{DocumentFault, MAX_DOCUMENT};
use sno_edit::{Done, EditRules, FileFault, Plan, Purpose, Tally, plan_file};
use sno_files::{
    Listed, Paths, Place, ReadOnly, Writing, edit_some, path_from_here, remove_leftovers,
};
use std::alloc::{AllocError, Global};
use std::fs;
use std::fs::File;
use std::io::{IsTerminal, Read, Write};
use std::rt::{Env, Files};
use std::thread::Threads;

/// The status after rules that are not rules.
const BAD_RULES: u8 = 2;

/// The bytes of the rules; of rules that are too long only the first.
fn rules_bytes<R: Files, I: Read>(
    rt: &R,
    alloc: Global,
    input: &mut I,
    rules: &str,
) -> Result<Vec<u8>, NoRules> {
    let read = if rules == "-" {
        read_up_to(alloc, input, MAX_DOCUMENT)
    } else {
        match fs::open(rt, rules) {
            Ok(mut file) => read_up_to(alloc, &mut file, MAX_DOCUMENT),
            Err(_) => Err(ProgramFault::Read),
        }
    };
    match read {
        Err(ProgramFault::Read) => {
            let called = name_of(rules);
            Err(NoRules::Unread(format!(in alloc; "{called}: read failed\n")?))
        }
        Err(fault) => Err(NoRules::Fault(fault)),
        Ok(bytes) => Ok(bytes),
    }
}

/// Counts what became of files, and adds what is reported of each.
fn report_ends<R: Files<File = File>, E: Write>(
    editor: &Editor<'_, R>,
    paths: &[&str],
    ends: &[Result<Done, FileFault>],
    tally: &mut Tally,
    lines: &mut Vec<u8>,
    errors: &mut E,
) -> Result<(), AllocError> {
    for (path, end) in paths.iter().zip(ends.iter()) {
        tally.count(end);
        match end {
            Ok(done) => report_stopped_in(editor, path, done, tally, errors),
            Err(fault) => report_fault(errors, path, *fault),
        }
        put_end(editor.alloc, Form::Paths, path, end, lines)?;
    }
    Ok(())
}

/// Edits the first of these files, at least one, and returns what became of each: up to 64 of them together, if new files have to be on
/// the disk, and otherwise a share for each thread.
fn edit_first<R: Files<File = File, Dir: Send> + Threads + Sync>(
    editor: &Editor<'_, R>,
    paths: &[&str],
    writing: Writing<'_>,
) -> Result<Vec<Result<Done, FileFault>>, AllocError> {
    if writing.sync {
        let ends = edit_some(editor.rt, editor.alloc, editor.rules, writing, paths)?;
        return Ok(ends);
    }
    let most = editor.threads.saturating_mul(SHARE);
    let (share, _later) = paths.split_at(most.min(paths.len()));
    let ends = edit_shared(editor, writing, share)?;
    Ok(ends)
}

/// Edits the files, and then writes the path of each that changed.
fn write_files<R: Files<File = File, Dir: Send> + Threads + Sync, W: Write, E: Write>(
    editor: &Editor<'_, R>,
    paths: &[&str],
    writing: Writing<'_>,
    output: &mut W,
    errors: &mut Progress<'_, E>,
) -> Result<Tally, ProgramFault> {
    let mut tally = Tally::of(paths.len());
    let mut lines = Vec::new(editor.alloc);
    let mut edited = 0;
    errors.begin(paths.len());
    // Each step edits at least one file.
    for _ in 0..paths.len() {
        let (_before, rest) = paths.split_at(paths.len().min(edited));
        if rest.is_empty() {
            break;
        }
        let ends = edit_first(editor, rest, writing)?;
        let (files, _later) = rest.split_at(ends.len().min(rest.len()));
        report_ends(editor, files, &ends, &mut tally, &mut lines, errors)?;
        edited = edited.saturating_add(ends.len());
        errors.add(ends.len());
    }
    errors.end();
    write_all(output, &lines)?;
    Ok(tally)
}

/// The path of a file in a diff: that from the current folder, or its own if it isn't in that.
fn diff_path<R: Files>(rt: &R, alloc: Global, path: &str) -> Result<Option<String>, FileFault> {
    match path_from_here(rt, alloc, path) {
        Ok(path) => Ok(path),
        Err(e) => Err(FileFault::Unread(e.kind())),
    }
}

/// Adds what is shown of a file that is not written. `None` if its diff is left out, since the file is not in the current folder.
pub(crate) fn put_file<R: Files<File = File>>(
    editor: &Editor<'_, R>,
    path: &str,
    show: Show,
    out: &mut Vec<u8>,
) -> Result<Option<Plan>, FileFault> {
    let (rt, alloc) = (editor.rt, editor.alloc);
    let plan = plan_file(alloc, &ReadOnly { rt }, editor.rules, path)?;
    if !matches!(show, Show::Diff { .. }) {
        put_shown(alloc, show, path, path, &plan, out)?;
    } else if plan.changes() {
        let Some(diff_path) = diff_path(rt, alloc, path)? else {
            return Ok(None);
        };
        put_shown(alloc, show, path, diff_path.as_str(), &plan, out)?;
    }
    Ok(Some(plan))
}

/// Adds what a file that could not be taken is in the form that is shown.
fn put_refused(
    alloc: Global,
    path: &str,
    fault: FileFault,
    show: Show,
    out: &mut Vec<u8>,
) -> Result<(), AllocError> {
    match show {
        Show::End(form) => put_end(alloc, form, path, &Err(fault), out),
        Show::Diff { .. } => Ok(()),
    }
}

/// Writes what is shown of a file that is planned: these bytes, and then its matches.
fn write_plan<R: Files<File = File>, W: Write>(
    editor: &Editor<'_, R>,
    path: &str,
    show: Show,
    plan: &Plan,
    shown: &[u8],
    output: &mut W,
) -> Result<(), ProgramFault> {
    write_all(output, shown)?;
    write_plan_rows(editor.alloc, editor.rules, path, show, plan, output)
}

/// Writes what is shown of a file that could not be taken.
fn write_refused<W: Write>(
    alloc: Global,
    path: &str,
    fault: FileFault,
    show: Show,
    output: &mut W,
) -> Result<(), ProgramFault> {
    let mut shown = Vec::new(alloc);
    put_refused(alloc, path, fault, show, &mut shown)?;
    write_all(output, &shown)
}

/// Writes what is shown of a file that is not written, and counts it.
fn show_file<R: Files<File = File>, W: Write, E: Write>(
    editor: &Editor<'_, R>,
    path: &str,
    show: Show,
    tally: &mut Tally,
    output: &mut W,
    errors: &mut E,
) -> Result<(), ProgramFault> {
    let mut shown = Vec::new(editor.alloc);
    match put_file(editor, path, show, &mut shown) {
        Ok(Some(plan)) => {
            count_plan(editor.alloc, editor.rules, path, &plan, tally, errors);
            write_plan(editor, path, show, &plan, &shown, output)
        }
        Ok(None) => {
            tally.failed = true;
            let _printed = errors.writeln(format_args!(
                "{path}: not in the current folder, so no diff of it is written"
            ));
            Ok(())
        }
        Err(fault) => {
            count_fault(path, fault, tally, errors);
            write_refused(editor.alloc, path, fault, show, output)
        }
    }
}

/// Shows what would change in each of the files.
fn show_each<R: Files<File = File>, W: Write, E: Write>(
    editor: &Editor<'_, R>,
    paths: &[&str],
    show: Show,
    tally: &mut Tally,
    output: &mut W,
    errors: &mut E,
) -> Result<(), ProgramFault> {
    for path in paths {
        show_file(editor, path, show, tally, output, errors)?;
    }
    Ok(())
}

/// Writes what is shown of each file that threads have planned.
fn show_seen<R: Files<File = File>, W: Write, E: Write>(
    editor: &Editor<'_, R>,
    places: &[Place<'_, Seen>],
    show: Show,
    tally: &mut Tally,
    output: &mut W,
    errors: &mut E,
) -> Result<(), ProgramFault> {
    for place in places {
        let path = place.path;
        match &place.result {
            Some(Ok(Some(sight))) => {
                tally.count(&Ok(sight.done));
                write_all(output, &sight.bytes)?;
            }
            Some(Err(fault)) => {
                count_fault(path, *fault, tally, errors);
                write_refused(editor.alloc, path, *fault, show, output)?;
            }
            _ => show_file(editor, path, show, tally, output, errors)?,
        }
    }
    Ok(())
}

/// Shows what would change in these files. Several are planned by threads.
fn show_share<R: Files<File = File, Dir: Send> + Threads + Sync, W: Write, E: Write>(
    editor: &Editor<'_, R>,
    paths: &[&str],
    show: Show,
    tally: &mut Tally,
    output: &mut W,
    errors: &mut E,
) -> Result<(), ProgramFault> {
    if editor.threads == 1 || paths.len() == 1 {
        return show_each(editor, paths, show, tally, output, errors);
    }
    let seen = see_shared(editor, show, paths)?;
    show_seen(editor, &seen, show, tally, output, errors)
}

/// Shows what would change, and writes no file.
fn show_files<R: Files<File = File, Dir: Send> + Threads + Sync, W: Write, E: Write>(
    editor: &Editor<'_, R>,
    paths: &[&str],
    show: Show,
    output: &mut W,
    errors: &mut Progress<'_, E>,
) -> Result<Tally, ProgramFault> {
    let mut tally = Tally::of(paths.len());
    errors.begin(paths.len());
    for share in paths.chunks(editor.threads.saturating_mul(SHARE).max(1)) {
        show_share(editor, share, show, &mut tally, output, errors)?;
        errors.add(share.len());
    }
    Ok(tally)
}

/// Writes a warning of each member that rules don't have, or have twice. If a line can't be written, the others are.
fn warn_of_members<E: Write>(
    alloc: Global,
    path: &str,
    bytes: &[u8],
    errors: &mut E,
) -> Result<(), AllocError> {
    for warning in member_warnings(alloc, bytes)? {
        let Warning { place, message, .. } = warning;
        let _printed = errors.writeln(format_args!("{path}: {place}: warning: {message}"));
    }
    Ok(())
}

/// The rules, unless the object of one has a variable that its pattern doesn't assign.
fn with_assigned(alloc: Global, rules: EditRules) -> Result<EditRules, NoRules> {
    match unassigned_in(alloc, &rules)? {
        None => Ok(rules),
        Some(Unassigned { number, message }) => Err(NoRules::Refused(format!(in alloc;
            "statement {number}: {message}\n"
        )?)),
    }
}

/// The rules of a file.
fn rules_of_file<R: Files, I: Read, E: Write>(
    rt: &R,
    alloc: Global,
    options: &EditOptions<'_>,
    rules: &str,
    input: &mut I,
    errors: &mut E,
) -> Result<EditRules, NoRules> {
    let bytes = rules_bytes(rt, alloc, input, rules)?;
    match EditRules::read(alloc, &bytes, options.anchor, options.trials) {
        Ok(read) => {
            let called = name_of(rules);
            warn_of_members(alloc, called, &bytes, errors)?;
            with_assigned(alloc, read)
        }
        Err(DocumentFault::Memory) => Err(NoRules::Fault(ProgramFault::Memory)),
        Err(fault) => Err(NoRules::Refused(format!(in alloc; "{fault}\n")?)),
    }
}

fn rules_for<R: Files + AllocGlobal, I: Read, E: Write>(
    rt: &R,
    alloc: Global,
    request: &EditRequest<'_>,
    input: &mut I,
    errors: &mut E,
) -> Result<EditRules, NoRules> {
    let options = &request.options;
    match options.rules {
        Some(rules) if !request.lines.are_given() => {
            rules_of_file(rt, alloc, options, rules, input, errors)
        }
        _ => rules_of_lines(rt, alloc, &request.lines, options.anchor, options.trials),
    }
}

/// What is shown, if no file is written.
fn show_of(options: &EditOptions<'_>, coloured: bool) -> Option<Show> {
    match options.purpose {
        Purpose::Write => None,
        Purpose::Diff => Some(Show::Diff { coloured }),
        Purpose::Check => Some(Show::End(form_of(options))),
    }
}

/// How files are reported.
fn form_of(options: &EditOptions<'_>) -> Form {
    if options.json {
        Form::Json
    } else {
        Form::Paths
    }
}

/// How many threads share the files. If old files are kept it is one: what is kept of a file may be the next one.
fn threads_for<R: Threads>(rt: &R, options: &EditOptions<'_>) -> usize
    ensures { (0 < result) × (result ≤ MAX_THREADS) }
{
    if options.backup.is_some() {
        return 1;
    }
    thread_count(rt, options.threads)
}

/// Edits the files and writes how many changed, or shows what would become of them.
fn edit<R: Files<File = File, Dir: Send> + Threads + Sync, W: Write, E: Write>(
    editor: &Editor<'_, R>,
    options: &EditOptions<'_>,
    found: &Paths,
    show: Option<Show>,
    output: &mut W,
    errors: &mut Progress<'_, E>,
) -> Result<Tally, ProgramFault> {
    let paths = &found.lent(editor.alloc)?;
    if let Some(show) = show {
        return show_files(editor, paths, show, output, errors);
    }
    let writing = Writing {
        sync: options.sync,
        backup: options.backup,
    };
    remove_leftovers(editor.rt, editor.alloc, paths)?;
    let tally = if options.json {
        edit_with_rows(editor, paths, writing, output, errors)?
    } else {
        write_files(editor, paths, writing, output, errors)?
    };
    report_tally(editor.alloc, &tally, found.not_text, errors)?;
    Ok(tally)
}

/// The status after an edit: that of the files, or 4 if a folder could not be read.
fn status_of(tally: &Tally, purpose: Purpose, listed: &Listed) -> u8 {
    if listed.unread.is_empty() {
        tally.status(purpose)
    } else {
        FAILED
    }
}

/// The status after rules that can't be used. If their fault can't be written, it is the same.
fn without_rules<E: Write>(refused: NoRules, errors: &mut E) -> Result<u8, ProgramFault> {
    let (text, status) = match refused {
        NoRules::Fault(fault) => return Err(fault),
        NoRules::Refused(text) => (text, BAD_RULES),
        NoRules::Unread(text) => (text, FAILED),
    };
    let _printed = write_all(errors, text.as_bytes());
    Ok(status)
}

/// Edits files by rules and returns the status:
///
/// - 4 if a file could not be taken or written, or a folder, a list of files or the file of the rules not be read;
/// - otherwise 1 if a statement was refused on a file, or stopped at the most rounds and matches once more, or if there was no
///   match in any, or, if files are only checked, if one would change;
/// - otherwise 0;
/// - 2 if the rules are invalid, or the object of one has a variable that no part of its pattern assigns. Then `errors` has their
///   first fault, and no file was touched.
///
/// New files that killed runs left in the folders of the files are removed. A file that several paths lead to is edited once, under
/// the first of them. Without files the text of `input` is edited, and written to `output`.
///
/// Refused with `Memory` or `Write`.
pub(crate) fn run_edit<
    R: Files<File = File, Dir: Send> + Env + Threads + AllocGlobal + Clone + Drop + Sync,
    I: Read,
    W: Write + IsTerminal,
    E: Write,
>(
    rt: &R,
    alloc: Global,
    request: &EditRequest<'_>,
    input: &mut I,
    output: &mut W,
    errors: &mut Progress<'_, E>,
) -> Result<u8, ProgramFault> {
    let rules = match rules_for(rt, alloc, request, input, errors) {
        Ok(rules) => rules,
        Err(refused) => return without_rules(refused, errors),
    };
    let options = &request.options;
    let show = show_of(options, has_colours(rt, output));
    if request.is_filter() {
        return match run_filter(alloc, &rules, show, input, output, errors) {
            Ok(tally) => Ok(tally.status(options.purpose)),
            Err(fault) => Err(fault),
        };
    }
    let threads = threads_for(rt, options);
    let Some(mut listed) = found_files(rt, alloc, &request.files, threads, input, errors)? else {
        return Ok(FAILED);
    };
    let texts = listed.take_texts(rt, alloc, threads)?;
    let found = texts.without_repeats(rt, alloc, threads)?;
    let editor = Editor {
        rt,
        alloc,
        rules: &rules,
        threads,
    };
    let tally = edit(&editor, options, &found, show, output, errors)?;
    Ok(status_of(&tally, options.purpose, &listed))
}
