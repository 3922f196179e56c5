//! The files of the system: which files paths lead to, how they are read, and how they are edited.
//!
//! What a file of the system holds is not claimed here: the system is no part of the proof. What the code does:
//!
//! - A file that is edited is held: opened and locked, by `flock`, from before it is read until its new text has its place. So
//!   two runs on one file edit it one after the other. On a file system without locks only the next item remains.
//! - Before a new text takes its place, the path has to lead to the same file as before, of the same length and times. After it the old
//!   file has to have the length and the time that it had. If another program changed it meanwhile, it is put back and edited anew.
//! - A new text is written to a new file beside the old one, and takes its place by being renamed. So each file is whole at any
//!   moment. Through a symbolic link its target is replaced.
//! - A new file has a name that can't be foretold, and is made for its owner alone. It gets its owner and its permissions by its
//!   descriptor, and nobody may do more with it than with the old one. Before it takes its place it has to have the length of its text. An
//!   error that comes only at its close isn't seen without `sync`. It is locked as long as the run goes on, and the next run removes those
//!   that nobody has locked.
//! - With `sync` the bytes of a new file are on the disk before it takes its place, and its name before the file is reported as edited.
//!
//! | File | What it does |
//! |---|---|
//! | `names` | names of files, and patterns of them as `*.c` |
//! | `trees` | `Listed`: the files that are named, and those in folders |
//! | `texts` | which files are text |
//! | `paths` | `Paths`: the files that are named, and the texts in folders |
//! | `repeats` | paths that lead to a file that another path leads to |
//! | `lists` | lists of paths |
//! | `reading` | `ReadOnly`, `text_bytes`: files that are only read |
//! | `one_text` | `OneText`: a text that is in no file |
//! | `relative` | paths of files from the current folder |
//! | `held` | `HeldFiles`: files that are held while they are edited |
//! | `new_files` | new files |
//! | `owners` | whose a new file is, and who may read and write it |
//! | `taking_places` | how new files take the places of old ones |
//! | `leftovers` | `remove_leftovers`: new files that killed runs left |
//! | `synced` | new files that have to be on the disk |
//! | `folders` | the folders of files |
//! | `overtaken` | files that are to be edited anew |
//! | `editing` | `edit_one`, `edit_with_text`, `edit_some`: files edited by rules |
//! | `in_threads` | `side_by_side`: work on several files in threads |
//! | `reasons` | `Reason`: why a file stays as it was, in words |
#![tactic(auto)]

mod editing;
mod folders;
mod held;
mod in_threads;
mod leftovers;
mod lists;
mod names;
mod new_files;
mod one_text;
mod overtaken;
mod owners;
mod paths;
mod reading;
mod reasons;
mod relative;
mod repeats;
mod synced;
mod taking_places;
mod texts;
mod trees;

pub use editing::{EditedFile, edit_one, edit_some, edit_with_text};
pub use in_threads::{Place, side_by_side};
pub use leftovers::remove_leftovers;
pub use lists::{ListFault, paths_in};
pub use new_files::Writing;
pub use one_text::OneText;
pub use overtaken::lacks_room;
pub use paths::Paths;
pub use reading::{ReadOnly, text_bytes};
pub use reasons::Reason;
pub use relative::path_from_here;
pub use texts::is_text;
pub use trees::{Listed, Part};
