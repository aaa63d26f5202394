//! The files of the machine.

use crate::terminal::Terminal;
use crate::trouble::trouble_of;
use cli_lines::{Access, FileFault, Files, Target};
use std::alloc::{AllocError, Global};
use std::fs::{self, File, Metadata};
use std::io::{ErrorKind, Stdin};
use std::os::unix::fs::MetadataExt;
use std::path::Path;

/// The files of the machine that the program runs on.
#[derive(Drop)]
pub struct Disk<'a>(&'a HostRuntime);

impl<'a> Disk<'a> {
    /// The files of this machine.
    pub fn new(machine: &'a HostRuntime) -> Disk<'a> {
        Disk(machine)
    }

    /// Where that goes which is written under a name that leads to nothing: to a new file, if there
    /// is a folder for it. A link that leads nowhere is no name of a file.
    fn new_file(&self, alloc: Global, name: &str) -> Result<Target, FileFault> {
        let path = Path::new(".").join(alloc, name)?;
        let has_folder = path.parent().is_some_and(|folder| folder.is_dir(self.0));
        if !has_folder || name.ends_with('/') || path.is_symlink(self.0) {
            return Err(FileFault::Device);
        }
        Ok(Target::NewFile(String::from_str(alloc, name)?))
    }

    /// Takes an opened file for the program alone. None where it is a device or a pipe, where another
    /// one has it, and where the name leads to another file by now: whoever had this one has put
    /// that in its place.
    fn locked(&self, name: &str, file: File) -> Option<File> {
        let opened = file.metadata().ok()?;
        if !opened.is_file() {
            return None;
        }
        file.try_lock().ok()?;
        let named = fs::metadata(self.0, name).ok()?;
        is_one_file(&opened, &named).then_some(file)
    }
}

/// Whether the numbers of the device and of the file on it are the same.
fn is_one_file(one: &Metadata, other: &Metadata) -> bool {
    (one.dev(), one.ino()) == (other.dev(), other.ino())
}

impl<'a> Files for Disk<'a> {
    type Reader = File;

    type Writer = File;

    type Store = File;

    type Input = Stdin;

    type Lock = File;

    type Watch = Terminal<'a>;

    fn open(&mut self, name: &str) -> Option<File> {
        fs::open(self.0, name).ok()
    }

    fn target(&mut self, alloc: Global, name: &str) -> Result<Target, FileFault> {
        match fs::metadata(self.0, name) {
            Ok(found) if found.is_dir() => Err(FileFault::Device),
            Ok(found) if found.is_file() => {
                let path = fs::canonicalize(self.0, name)?;
                Ok(Target::File(path.into_string()))
            }
            Ok(_) => Ok(Target::Device(String::from_str(alloc, name)?)),
            Err(error) if error.kind() == ErrorKind::NotFound => self.new_file(alloc, name),
            Err(error) => Err(FileFault::from(error)),
        }
    }

    fn is_same(&mut self, name: &str, other: &str) -> bool {
        match (fs::metadata(self.0, name), fs::metadata(self.0, other)) {
            (Ok(one), Ok(other)) => is_one_file(&one, &other),
            _ => false,
        }
    }

    fn lock(&mut self, name: &str) -> Option<File> {
        let file = fs::open(self.0, name).ok()?;
        self.locked(name, file)
    }

    fn lock_new(&mut self, name: &str) -> Option<File> {
        let mut options = File::options();
        let file = options
            .write(true)
            .create_new(true)
            .open(self.0, name)
            .ok()?;
        self.locked(name, file)
    }

    fn create(&mut self, name: &str) -> Option<File> {
        if Path::new(name).is_file(self.0) && !Path::new(name).is_symlink(self.0) {
            let _lock = self.lock(name)?;
            fs::remove_file(self.0, name).ok()?;
        }
        self.lock_new(name)
    }

    fn open_device(&mut self, name: &str) -> Option<File> {
        File::options().write(true).open(self.0, name).ok()
    }

    /// The file gets the name once it is on the disk.
    fn keep(&mut self, writer: File, from: &str, to: &str) -> bool {
        writer.sync_all().is_ok() && fs::rename(self.0, from, to).is_ok()
    }

    fn remove(&mut self, name: &str) {
        let _ = fs::remove_file(self.0, name);
    }

    fn open_store(&mut self, name: &str) -> Option<File> {
        let mut options = File::options();
        options.read(true).append(true).create(true);
        let file = options.open(self.0, name).ok()?;
        self.locked(name, file)
    }

    fn close_store(&mut self, _store: File, _name: &str) {}

    fn input(&mut self) -> Stdin {
        self.0.stdin()
    }

    fn watch(&mut self) -> Terminal<'a> {
        Terminal::new(self.0)
    }

    fn remark(&mut self, line: &str) {
        let _ = eprintln!(self.0; "ledger: {line}");
    }

    fn explain(&mut self, sentence: &str) {
        self.remark(sentence);
    }

    fn trouble(&mut self, alloc: Global, name: &str, access: Access) -> Result<String, AllocError> {
        trouble_of(self.0, alloc, name, access)
    }
}
