//! The files that the program is given.

ghost use Rattle.std.specs.Prelude.{◌≡◌, ◌∷◌, ℕ, Bool, true, false, [], List, Option, Some, None, IfNone, IfSome, IfOk, IsTrue, OnOk, take};
ghost use Rattle.cli_lines.specs.Places.{ChangesOnly, FilesHeld, IsFileOf, IsFree, opened_bytes};
ghost use Rattle.cli_lines.specs.Told.{IsHeld};

use std::alloc::{AllocError, Global};
use std::io::{self, ErrorKind, Read, Write};
use store_devices::StoreFile;
use store_replay::Watch;

/// Where the program's files are.
pub trait Files {
    type Reader: Read + Drop;

    type Writer: Write + Drop;

    /// The file of a store, of which several threads read at once.
    type Store: StoreFile + Sync;

    type Input: Read + Drop;

    /// A file that the program has for itself alone, until this is dropped.
    type Lock: Drop;

    type Watch: Watch + Drop;

    /// The bytes of the file of a name, where they are known.
    ghost bytes: { Self → FilesHeld } = { λ _ _. None };

    /// The bytes of the standard input, from where it was read to, where they are known.
    ghost input_bytes: { Self → Option (List ℕ) } = { λ _. None };

    /// Whether what is written is known. Then no name is a link's or a device's, and no two lead to
    /// one file.
    ghost is_known: { Bool } = { false };

    /// Opens a file for reading, from its first byte on. None where it cannot be opened.
    fn open(&mut self, name: &str) -> Option<Self::Reader>
        ensures read { IfSome result (λ r. Self.Reader.remaining r ≡ bytes self.old name.now) }
        ensures kept { bytes self.new ≡ bytes self.old }
        ensures input { input_bytes self.new ≡ input_bytes self.old };

    /// Where that goes which is written under a name.
    ///
    /// A fault where the name is a folder's or no file can have it, where it is that of a link that
    /// leads nowhere, and where it cannot be looked at.
    fn target(&mut self, alloc: Global, name: &str) -> Result<Target, FileFault>
        ensures file { is_known ≡ true → IfOk result (IsFileOf name.now) }
        ensures free { is_known ≡ true → IfOk result (IsFree (bytes self.old)) }
        ensures kept { bytes self.new ≡ bytes self.old }
        ensures input { input_bytes self.new ≡ input_bytes self.old };

    /// Whether both names lead to one file.
    fn is_same(&mut self, name: &str, other: &str) -> bool
        ensures kept { bytes self.new ≡ bytes self.old }
        ensures input { input_bytes self.new ≡ input_bytes self.old };

    /// Takes the file of a name for the program alone. None where that cannot be done, and where
    /// another one has the file so, by `open_store` too.
    fn lock(&mut self, name: &str) -> Option<Self::Lock>
        ensures kept { bytes self.new ≡ bytes self.old };

    /// Makes an empty file of a name that no file has, and takes it as `lock` does. None where that
    /// cannot be done.
    fn lock_new(&mut self, name: &str) -> Option<Self::Lock>
        ensures others { ChangesOnly is_known (name.now ∷ []) (bytes self.old) (bytes self.new) }
        ensures refused { is_known ≡ true → IfNone result (bytes self.new ≡ bytes self.old) };

    /// Makes a file for writing, in the place of a file of that name, and takes it as `lock` does.
    /// None where that cannot be done, where anything but a file has the name, and where another one
    /// has that file.
    fn create(&mut self, name: &str) -> Option<Self::Writer>
        ensures empty { is_known ≡ true → IfSome result (λ w. Self.Writer.contents w ≡ Some []) }
        ensures others { ChangesOnly is_known (name.now ∷ []) (bytes self.old) (bytes self.new) };

    /// Opens a device or a pipe for writing. None where that cannot be done.
    fn open_device(&mut self, name: &str) -> Option<Self::Writer>
        ensures kept { bytes self.new ≡ bytes self.old };

    /// Closes a file that was made for writing and gives it another name, in the place of a file
    /// that has it. Answers whether that was done: where it was not, that one stays.
    fn keep(&mut self, writer: Self::Writer, from: &str, to: &str) -> bool
        ensures moved { is_known ≡ true → IsTrue result
            → bytes self.new to.now ≡ Self.Writer.contents writer }
        ensures refused { is_known ≡ true → result ≡ false
            → bytes self.new to.now ≡ bytes self.old to.now }
        ensures others { ChangesOnly is_known (from.now ∷ to.now ∷ []) (bytes self.old)
            (bytes self.new) };

    /// Takes a file away, where that can be done.
    fn remove(&mut self, name: &str)
        ensures removed { is_known ≡ true → bytes self.new name.now ≡ None }
        ensures others { ChangesOnly is_known (name.now ∷ []) (bytes self.old) (bytes self.new) };

    /// Opens a file for reading, and for writing at its end, and makes it where there is none. The
    /// program has it for itself alone. None where that cannot be done, and where another one has
    /// the file so, by `lock` too. It is known what a store holds exactly where it is known what is
    /// written.
    fn open_store(&mut self, name: &str) -> Option<Self::Store>
        ensures known { Self.Store.is_known ≡ is_known }
        ensures held { IfSome result
            (λ s. Self.Store.contents s ≡ opened_bytes is_known (bytes self.old name.now)) }
        ensures there { is_known ≡ true →
            IfSome result (λ s. bytes self.new name.now ≡ Self.Store.contents s) }
        ensures refused { is_known ≡ true → IfNone result (bytes self.new ≡ bytes self.old) }
        ensures input { input_bytes self.new ≡ input_bytes self.old }
        ensures others { ChangesOnly is_known (name.now ∷ []) (bytes self.old) (bytes self.new) };

    /// Closes a file that was opened by `open_store` under a name. It holds what was left in it.
    fn close_store(&mut self, store: Self::Store, name: &str)
        ensures stored { is_known ≡ true → IfSome (bytes self.old name.now)
            (λ held. bytes self.new name.now ≡ Self.Store.contents store) }
        ensures others { ChangesOnly is_known (name.now ∷ []) (bytes self.old) (bytes self.new) };

    /// The standard input, from where it was read to.
    fn input(&mut self) -> Self::Input
        ensures read { Self.Input.remaining result ≡ input_bytes self.old }
        ensures kept { bytes self.new ≡ bytes self.old };

    /// Who is told how far a replay is, until this is dropped.
    fn watch(&mut self) -> Self::Watch
        ensures kept { bytes self.new ≡ bytes self.old }
        ensures input { input_bytes self.new ≡ input_bytes self.old };

    /// Says a line to whoever runs the program, on the standard error.
    fn remark(&mut self, line: &str)
        ensures kept { bytes self.new ≡ bytes self.old }
        ensures input { input_bytes self.new ≡ input_bytes self.old };

    /// Says in the same way, in a sentence, why a line on the standard output refuses something.
    fn explain(&mut self, sentence: &str)
        ensures kept { bytes self.new ≡ bytes self.old }
        ensures input { input_bytes self.new ≡ input_bytes self.old };

    /// Why a file could not be used so, as far as another look at it tells, in words without its
    /// name.
    fn trouble(&mut self, alloc: Global, name: &str, access: Access) -> Result<String, AllocError>
        ensures kept { bytes self.new ≡ bytes self.old }
        ensures input { input_bytes self.new ≡ input_bytes self.old };
}

/// What a file is used for.
#[derive(Clone, Copy, PartialEq, Eq)]
pub enum Access {
    Read,
    /// To be written by this process alone.
    Write,
}

/// Where that goes which is written under a name. A link stands for what it leads to.
#[derive(Drop)]
pub enum Target {
    /// A file of this name, which is there. A new one takes its place.
    File(String),
    /// A file of this name, which is not there yet.
    NewFile(String),
    /// A device or a pipe of this name. It takes what is written, and stays what it is.
    Device(String),
}

/// Why a file was not opened, read or written.
#[derive(Clone, Copy)]
pub enum FileFault {
    Memory,
    /// It could not be opened, read or written.
    Device,
}

impl From<io::Error> for FileFault {
    fn from(error: io::Error) -> FileFault {
        if error.kind() == ErrorKind::OutOfMemory {
            FileFault::Memory
        } else {
            FileFault::Device
        }
    }
}

impl From<AllocError> for FileFault {
    fn from(_refused: AllocError) -> FileFault {
        FileFault::Memory
    }
}

/// The first bytes of a file, `most` at most, and all where it has no more.
pub fn read_at_most<F: Files>(
    alloc: Global,
    files: &mut F,
    name: &str,
    most: u64,
) -> Result<Vec<u8>, FileFault>
    ensures bytes { IfOk result
        (λ v. IfSome (F.bytes files.old name.now) (λ bytes. v.items ≡ take most bytes)) }
    ensures kept { F.bytes files.new ≡ F.bytes files.old }
    ensures input { OnOk result (F.input_bytes files.new ≡ F.input_bytes files.old) }
{
    let Some(reader) = files.open(name) else {
        return Err(FileFault::Device);
    };
    let mut bytes = Vec::new(alloc);
    reader.take(most).read_to_end(&mut bytes)?;
    Ok(bytes)
}

/// All the bytes of a file.
pub fn read_all<F: Files>(alloc: Global, files: &mut F, name: &str) -> Result<Vec<u8>, FileFault>
    ensures bytes { IfOk result (λ v. IsHeld (F.bytes files.old name.now) v.items) }
    ensures kept { F.bytes files.new ≡ F.bytes files.old }
    ensures input { OnOk result (F.input_bytes files.new ≡ F.input_bytes files.old) }
{
    let Some(mut reader) = files.open(name) else {
        return Err(FileFault::Device);
    };
    let mut bytes = Vec::new(alloc);
    reader.read_to_end(&mut bytes)?;
    Ok(bytes)
}
