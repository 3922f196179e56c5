//! The names that a store uses in its folder.

use sno_replace::Calls;
use std::alloc::{AllocError, Global};
use std::fs::{OpenFile, OpenOptions};
use std::io::ErrorKind;
use std::rt::Files;
use std::{fs, io};

/// The paths of a store and of what is put beside it.
#[derive(Drop)]
pub(crate) struct StoreNames {
    /// The store; of a link what it leads to.
    pub(crate) store: String,
    /// The store that goes on from it, until it takes its place.
    pub(crate) new: String,
    /// The store from which it goes on.
    pub(crate) old: String,
    /// What a crash has cut, before it is overwritten.
    pub(crate) torn: String,
    /// Their folder.
    folder: String,
}

/// The folder of this path.
fn folder_of(path: &str) -> &str {
    match path.rsplit_once('/') {
        Some(("", _)) => "/",
        Some((folder, _)) => folder,
        None => ".",
    }
}

/// The name in this path.
fn name_in(path: &str) -> &str {
    match path.rsplit_once('/') {
        Some((_, name)) => name,
        None => path,
    }
}

/// The path without links of what is there, or of what can be made there.
pub(crate) fn place_of<R: Files>(rt: &R, alloc: Global, path: &str) -> Result<String, AllocError> {
    if let Ok(found) = rt.canonicalize(alloc, path) {
        return format!(in alloc; "{}", found.as_path().as_str());
    }
    match rt.canonicalize(alloc, folder_of(path)) {
        Ok(folder) => {
            let folder = folder.as_path().as_str().trim_end_matches('/');
            format!(in alloc; "{folder}/{}", name_in(path))
        }
        Err(_) => String::from_str(alloc, path),
    }
}

/// The names of the store with this path.
pub(crate) fn names_of<R: Files>(
    rt: &R,
    alloc: Global,
    path: &str,
) -> Result<StoreNames, AllocError> {
    let store = place_of(rt, alloc, path)?;
    Ok(StoreNames {
        new: format!(in alloc; "{store}.new")?,
        old: format!(in alloc; "{store}.1")?,
        torn: format!(in alloc; "{store}.torn")?,
        folder: String::from_str(alloc, folder_of(&store))?,
        store,
    })
}

impl StoreNames {
    /// Whether this path is one of the names.
    pub(crate) fn has(&self, path: &str) -> bool {
        [&self.store, &self.new, &self.old, &self.torn]
            .iter()
            .any(|name| name.as_str() == path)
    }

    /// Whether the folder can't have the longest name that a store needs: opening the new store looks for one that ends with `-journal`.
    pub(crate) fn are_too_long<R: Files>(&self, rt: &R, alloc: Global) -> Result<bool, AllocError> {
        let longest = format!(in alloc; "{}-journal", self.new)?;
        match rt.symlink_metadata(&longest) {
            Ok(_) => Ok(false),
            Err(error) => Ok(error.kind() == ErrorKind::InvalidFilename),
        }
    }
}

/// Whether there is something under this name, even a link that leads nowhere.
pub(crate) fn is_named<R: Files>(rt: &R, path: &str) -> bool {
    fs::symlink_metadata(rt, path).is_ok()
}

/// The calls of the system on the names of a store.
#[derive(Drop)]
pub(crate) struct SystemCalls<'a, R: Files> {
    pub(crate) rt: &'a R,
    pub(crate) names: &'a StoreNames,
}

impl<R: Files> Calls for SystemCalls<'_, R> {
    fn remove_old(&mut self) -> io::Result<()> {
        self.rt.remove_file(&self.names.old)
    }

    fn remove_new(&mut self) -> io::Result<()> {
        self.rt.remove_file(&self.names.new)
    }

    fn link_old(&mut self) -> io::Result<()> {
        self.rt.hard_link(&self.names.store, &self.names.old)
    }

    fn rename_new(&mut self) -> io::Result<()> {
        self.rt.rename(&self.names.new, &self.names.store)
    }

    fn wait(&mut self) -> io::Result<()> {
        let folder = OpenOptions::new()
            .read(true)
            .open(self.rt, self.names.folder.as_str())?;
        folder.sync_all()
    }
}
