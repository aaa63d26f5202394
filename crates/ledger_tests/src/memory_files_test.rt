//! Files in memory: each has the bytes that it was given last.

use cli_lines::{Files, MemoryFiles};
use std::alloc::Global;
use std::io::Read;
use std::test::Fail;

/// Whether the file of a name has these bytes.
fn has(alloc: Global, files: &mut MemoryFiles, name: &str, bytes: &[u8]) -> bool {
    let Some(mut file) = files.open(name) else {
        return false;
    };
    let mut found = Vec::new(alloc);
    file.read_to_end(&mut found).is_ok() && found.as_slice() == bytes
}

#[test]
fn files_keep_what_they_are_given(rt: HostRuntime) -> Result<(), Fail> {
    let alloc = rt.alloc();
    let mut files = MemoryFiles::new(alloc, Vec::new(alloc));
    files.put("first", b"none".to_vec(alloc)?)?;
    files.put("first", b"one".to_vec(alloc)?)?;
    let is_kept = files.keep(b"two".to_vec(alloc)?, "second.part", "second");
    let are_there = has(alloc, &mut files, "first", b"one")
        && has(alloc, &mut files, "second", b"two");
    assert!(rt; is_kept && are_there && files.open("third").is_none());
    Ok(())
}
