//! The folders of files.

use std::alloc::Global;
use std::fs::{File, OpenOptions};
use std::io;
use std::io::ErrorKind;
use std::rt::Files;

/// The folder of this file. With a slash and a name it is the path of a file in it.
pub(crate) fn folder_of(path: &str) -> &str {
    match path.rsplit_once('/') {
        Some((folder, _)) => folder,
        None => ".",
    }
}

/// Waits until the names of files in this folder are on the disk.
pub(crate) fn sync_folder<R: Files<File = File>>(
    rt: &R,
    alloc: Global,
    folder: &str,
) -> io::Result<()> {
    let path = format!(in alloc; "{folder}/")?;
    let folder = OpenOptions::new().read(true).open(rt, path.as_str())?;
    folder.sync_all()
}

/// The folders that were waited for, each with what that failed with, if it did.
#[derive(Drop)]
pub(crate) struct SyncedFolders {
    waits: Vec<(String, Option<ErrorKind>)>,
}

impl SyncedFolders {
    /// No folder.
    pub(crate) fn none(alloc: Global) -> SyncedFolders {
        SyncedFolders {
            waits: Vec::new(alloc),
        }
    }

    /// Waits until the names of files in this folder are on the disk, unless that was done before: then the result is that of before.
    pub(crate) fn sync<R: Files<File = File>>(
        &mut self,
        rt: &R,
        alloc: Global,
        folder: &str,
    ) -> io::Result<()> {
        let known = self.waits.iter().find(|wait| wait.0.as_str() == folder);
        if let Some((_, failed)) = known {
            return match failed {
                None => Ok(()),
                Some(kind) => Err(io::Error::from(*kind)),
            };
        }
        let synced = sync_folder(rt, alloc, folder);
        let failed = synced.as_ref().err().map(|e| e.kind());
        if let Ok(folder) = String::from_str(alloc, folder) {
            // Without memory for it the folder is waited for again.
            let _forgotten = self.waits.push((folder, failed));
        }
        synced
    }
}
