//! What is asked of the system, one call at a time.

use std::io;

/// The calls of the system for the three names of a store. Each is one call; if it fails, it has changed nothing.
pub trait Calls {
    /// Removes the name of the old store.
    fn remove_old(&mut self) -> io::Result<()>;

    /// Removes the name of the new store.
    fn remove_new(&mut self) -> io::Result<()>;

    /// Gives the store's file the name of the old one too.
    fn link_old(&mut self) -> io::Result<()>;

    /// Gives the new store the name of the store, which leads to no other file then.
    fn rename_new(&mut self) -> io::Result<()>;

    /// Waits until the names are on the disk as they are.
    fn wait(&mut self) -> io::Result<()>;
}

/// A call that succeeded.
#[derive(Clone, Copy, Debug, PartialEq, Eq)]
pub enum Done {
    /// The name of the old store was removed.
    RemovedOld,
    /// The name of the new store was removed.
    RemovedNew,
    /// The store's file got the name of the old one too.
    Linked,
    /// The new store got the name of the store.
    Renamed,
    /// The names are on the disk.
    Waited,
}
