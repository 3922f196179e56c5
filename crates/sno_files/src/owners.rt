//! Whose a new file is, and who may read and write it.
ghost use Rattle.std.specs.Prelude.{◌≡◌};
ghost use Rattle.sno_files.specs.Owners as owners;

use std::fs::{File, Metadata};
use std::io;
use std::os::unix::fs::{MetadataExt, fchown};

/// All permissions of a file.
const ALL: u32 = 0o7777;

/// All but that to run it as its owner.
const NOT_AS_OWNER: u32 = 0o3777;

/// Those of the owner, and that no one may remove it from a folder of all: not that to run it as its group.
const OWN: u32 = 0o5700;

/// The permissions of the group and of others to read, to write and to run a file.
const READ: u32 = 0o044;

const WRITE: u32 = 0o022;

const RUN: u32 = 0o011;

/// What the group and others may do, if both may; otherwise neither may.
fn of_both(mode: u32, both: u32) -> u32
    ensures { result ≡ owners.of_both mode both }
{
    if mode & both == both { both } else { 0 }
}

/// The permissions without that to run the file as an owner that it doesn't have.
fn for_owner(mode: u32, has_owner: bool) -> u32
    ensures { result ≡ owners.for_owner mode has_owner }
{
    if has_owner {
        mode & ALL
    } else {
        mode & NOT_AS_OWNER
    }
}

/// The permissions of a new file that has the owner and the group of the old one, or doesn't, from those of the old one.
pub(crate) fn kept_mode(mode: u32, has_owner: bool, has_group: bool) -> u32
    ensures { result ≡ owners.kept_mode mode has_owner has_group }
{
    let own = for_owner(mode, has_owner);
    if has_group {
        return own;
    }
    let shared = of_both(mode, READ) | (of_both(mode, WRITE) | of_both(mode, RUN));
    own & OWN | shared
}

/// Gives a new file the owner and the group of the old one; if both are not allowed, the group alone. Returns the permissions that it
/// may have then, so that nobody may do more with it than with the old one:
///
/// - those of the old one, if it has its owner and its group;
/// - with another owner, none to run it as its owner;
/// - with another group, none to run it as its group, and for the group and for others only what both had.
///
/// Refused if the system doesn't say whose it is.
pub(crate) fn give_owner(file: &File, old: &Metadata) -> io::Result<u32> {
    let (owner, group) = (old.uid(), old.gid());
    if fchown(file, Some(owner), Some(group)).is_err() {
        let _refused = fchown(file, None, Some(group));
    }
    let new = file.metadata()?;
    Ok(kept_mode(old.mode(), new.uid() == owner, new.gid() == group))
}
