//! Stores in files of the system.

use crate::puts::lines_of;
use sno_store::{OpenFault, open};
use std::fs;
use std::os::unix::fs::PermissionsExt;
use std::test::Fail;

const FOLDER: &str = "sno_store_test";

const PATH: &str = "sno_store_test/lines";

/// A file is made, locked, closed and opened again; nothing is left beside it.
#[test]
fn a_file_is_opened_again(rt: HostRuntime) -> Result<(), Fail> {
    let _ = fs::remove_dir_all(&rt, FOLDER);
    fs::create_dir(&rt, FOLDER)?;
    let (mut store, none) = open(&rt, PATH)?;
    assert!(rt; none.is_empty());
    assert!(rt; matches!(open(&rt, PATH), Err(OpenFault::Busy)));
    store.put(&lines_of(rt.alloc(), "{\"a\":1}\n{}")?)?;
    drop((store, none));
    assert_eq!(rt;
        fs::metadata(&rt, PATH)?.permissions().mode() & 0o777,
        0o600
    );
    assert!(rt; !fs::exists(&rt, "sno_store_test/lines-wal")?);
    let (store, lines) = open(&rt, PATH)?;
    assert_eq!(rt; lines.bytes(), b"{\"a\":1}\n{}\n".as_slice());
    drop((store, lines));
    fs::remove_dir_all(&rt, FOLDER)?;
    Ok(())
}

/// A file in a folder that is not there, and a folder instead of a file.
#[test]
fn files_that_are_not_opened(rt: HostRuntime) -> Result<(), Fail> {
    assert!(rt; matches!(open(&rt, "no_such_folder/lines"), Err(OpenFault::Io(_))));
    assert!(rt; matches!(open(&rt, "/"), Err(OpenFault::Io(_))));
    Ok(())
}
