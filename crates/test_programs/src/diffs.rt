//! Diffs.

use sno_edit::{script_of, unified_diff};
use std::test::Fail;

#[test]
fn a_diff(rt: HostRuntime) -> Result<(), Fail> {
    let alloc = rt.alloc();
    let script = script_of(alloc, b"a\nb\nc\nd\ne\nf\ng\n", b"a\nb\nc\nD\ne\nf\ng")?;
    let diff = unified_diff(alloc, "with blank", &script, false)?;
    assert_eq!(rt;
        diff.as_slice(),
        b"--- a/with blank\t\n+++ b/with blank\t\n@@ -1,7 +1,7 @@\n a\n b\n c\n-d\n+D\n e\n f\n-g\n+g\n\\ No newline at end of file\n".as_slice()
    );
    Ok(())
}
