//! Why a file of the machine cannot be used.

use cli_lines::Access;
use std::alloc::{AllocError, Global};
use std::fs::{self, File, TryLockError};
use std::io::{self, ErrorKind};
use std::path::Path;

/// Why a file cannot be used so, as far as another look at it tells.
pub(crate) fn trouble_of(
    machine: &HostRuntime,
    alloc: Global,
    name: &str,
    access: Access,
) -> Result<String, AllocError> {
    match look(machine, name, access) {
        Ok(words) => String::from_str(alloc, words),
        Err(error) if error.kind() == ErrorKind::NotFound => {
            String::from_str(alloc, missing(machine, alloc, name, access)?)
        }
        Err(error) => match kind_words(error.kind()) {
            Some(words) => String::from_str(alloc, words),
            None => format!(in alloc; "{error}"),
        },
    }
}

/// Looks at a file: what is wrong with it, or the system's reason.
fn look(machine: &HostRuntime, name: &str, access: Access) -> io::Result<&'static str> {
    let found = fs::metadata(machine, name)?;
    if found.is_dir() {
        return Ok("it is a folder");
    }
    // A pipe that is opened waits for who is at its other end.
    if !found.is_file() {
        return Ok("it is a device or a pipe, and cannot be used so");
    }
    let file = fs::open(machine, name)?;
    match access {
        Access::Read => Ok("it cannot be read to its end"),
        Access::Write => look_to_write(machine, name, &file),
    }
}

/// The same of a file that is to be written by this process alone.
fn look_to_write(machine: &HostRuntime, name: &str, file: &File) -> io::Result<&'static str> {
    match file.try_lock() {
        Err(TryLockError::WouldBlock) => return Ok("another process has it"),
        Err(TryLockError::Error(error)) => return Err(error),
        Ok(()) => {}
    }
    File::options().append(true).open(machine, name)?;
    Ok("it cannot be written to its end; see whether the disk is full")
}

/// What is missing where no file has a name.
fn missing(
    machine: &HostRuntime,
    alloc: Global,
    name: &str,
    access: Access,
) -> Result<&'static str, AllocError> {
    let path = Path::new(".").join(alloc, name)?;
    if path.is_symlink(machine) {
        return Ok("it is a link that leads nowhere");
    }
    if access == Access::Read {
        return Ok("there is no such file");
    }
    if path.parent().is_some_and(|folder| folder.is_dir(machine)) {
        return Ok("no file of that name can be made");
    }
    Ok("there is no folder for it")
}

/// The system's reason in words, where it is one of the common ones.
fn kind_words(kind: ErrorKind) -> Option<&'static str> {
    match kind {
        ErrorKind::PermissionDenied => Some("permission is denied"),
        ErrorKind::NotADirectory => Some("a part of its name is no folder"),
        ErrorKind::IsADirectory => Some("it is a folder"),
        ErrorKind::InvalidFilename => Some("no file can have that name"),
        ErrorKind::FilesystemLoop => Some("links lead in a circle"),
        _ => None,
    }
}
