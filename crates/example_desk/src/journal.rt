//! What a day leaves: the journal, and the texts that result from it.
use crate::faults::Fault;
use sno_desk::{Book, Entry};
use std::{io, str};

/// How many entries of the journal have this statement.
fn count(entries: &[Entry], number: u32) -> usize {
    entries
        .iter()
        .filter(|entry| entry.statement.number() == number)
        .count()
}

/// Whether each entry was performed on the version that the entries before it had left. Every statement here matches,
/// and so makes a version.
fn is_unbroken(entries: &[Entry]) -> bool {
    let mut version = 0;
    for entry in entries {
        if entry.version != version {
            return false;
        }
        version = entry.version.saturating_add(1);
    }
    true
}

/// The characters as a string: names and texts are ASCII.
fn letters(characters: &[u8]) -> &str {
    str::from_utf8(characters).unwrap_or_default()
}

/// Prints how many entries each statement has, and whether each was performed on the version before it.
fn print_counts<R: Print>(rt: &R, entries: &[Entry]) -> io::Result<()> {
    let lines = count(entries, 1);
    let marks = count(entries, 2);
    let unbroken = is_unbroken(entries);
    println!(rt; "entries {lines} and {marks}, unbroken {unbroken}")
}

/// Prints a text with its name and its version.
fn print_text<R: Print>(rt: &R, name: &[u8], version: u64, text: &[u8]) -> io::Result<()> {
    let name = letters(name);
    let characters = letters(text);
    println!(rt; "{name} version {version}: {characters}")
}

/// Prints the counts, and each text. Which seat came first differs from run to run; what is printed doesn't.
pub(crate) fn print_journal<R: Print>(rt: &R, book: &Book) -> Result<(), Fault> {
    print_counts(rt, book.journal()).map_err(|_| Fault::Write)?;
    for place in 0..book.len() {
        if let Some((name, text, version)) = book.text(place) {
            print_text(rt, name.bytes(), version, text.bytes()).map_err(|_| Fault::Write)?;
        }
    }
    Ok(())
}
