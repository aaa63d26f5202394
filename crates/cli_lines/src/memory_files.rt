//! Files in memory, of which every byte is known.

ghost use Rattle.std.specs.Prelude.{◌≡◌, ◌∷◌, ℕ, List, [], true, None, Some, IfNone, IfOk, IfSome, OnErr, OnOk};
ghost use Rattle.cli_lines.specs.Memory.{bytes_in};
ghost use Rattle.cli_lines.specs.Places.{ChangesOnly};

use crate::files::{Access, FileFault, Files, Target};
use crate::memory_store::MemoryStore;
use std::alloc::{AllocError, Global};
use std::collections::BTreeMap;
use std::io::Cursor;
use std::mem;
use store_replay::Unwatched;

/// Files in memory, by their names. Nobody else has them, and contracts see the bytes of each, and of
/// the standard input: what is said of files whose bytes are known is said of these. What is made for
/// writing is no file before `keep` gives it a name, and a file of the name that it has until then
/// stays. A store is made as an empty file where there is none, and the file stays as it was until the
/// store is closed.
#[derive(Drop)]
pub struct MemoryFiles {
    /// Where the files take their memory from.
    pub alloc: Global,
    pub by_name: BTreeMap<String, Vec<u8>>,
    /// The standard input, from where it was read to.
    pub input: Vec<u8>,
}

impl MemoryFiles {
    /// No files, and this standard input.
    pub fn new(alloc: Global, input: Vec<u8>) -> MemoryFiles
        ensures files { (name : List ℕ) → bytes_in result name ≡ None }
        ensures input { result.input ≡ input }
    {
        MemoryFiles {
            alloc,
            by_name: BTreeMap::new(alloc),
            input,
        }
    }

    /// Gives a file of a name these bytes, in the place of one that has it. The error is of memory.
    pub fn put(&mut self, name: &str, bytes: Vec<u8>) -> Result<(), AllocError>
        ensures put { OnOk result (bytes_in self.new name.now ≡ Some bytes.items) }
        ensures others { ChangesOnly true (name.now ∷ []) (bytes_in self.old) (bytes_in self.new) }
        ensures refused { OnErr result (bytes_in self.new ≡ bytes_in self.old) }
        ensures input { self.new.input ≡ self.old.input }
    {
        let name = String::from_str(self.alloc, name)?;
        self.by_name.insert(name, bytes)?;
        Ok(())
    }

    /// Makes an empty file of a name, and opens it as a store. None where there is no memory for it.
    fn make_store(&mut self, name: &str) -> Option<MemoryStore>
        ensures held { IfSome result (λ s. s.bytes.items ≡ []) }
        ensures made { IfSome result (λ _. bytes_in self.new name.now ≡ Some []) }
        ensures refused { IfNone result (bytes_in self.new ≡ bytes_in self.old) }
        ensures others { ChangesOnly true (name.now ∷ []) (bytes_in self.old) (bytes_in self.new) }
        ensures input { self.new.input ≡ self.old.input }
    {
        match self.put(name, Vec::new(self.alloc)) {
            Ok(()) => Some(MemoryStore::new(Vec::new(self.alloc))),
            Err(_) => None,
        }
    }
}

/// A copy of bytes.
fn copy_of(alloc: Global, bytes: &[u8]) -> Result<Vec<u8>, AllocError>
    ensures { IfOk result (λ copy. copy.items ≡ bytes.now) }
{
    let mut copy = Vec::new(alloc);
    copy.extend_from_slice(bytes)?;
    Ok(copy)
}

impl Files for MemoryFiles {
    ghost use Rattle.std.specs.Prelude.{true, [], Some};
    ghost use Rattle.cli_lines.specs.Memory.{bytes_in};

    ghost bytes = { bytes_in };

    ghost input_bytes = { λ files. Some files.input.items };

    ghost is_known = { true };

    type Reader = Cursor<Vec<u8>>;

    type Writer = Vec<u8>;

    type Store = MemoryStore;

    type Input = Cursor<Vec<u8>>;

    type Lock = ();

    type Watch = Unwatched;

    fn open(&mut self, name: &str) -> Option<Cursor<Vec<u8>>> {
        let bytes = self.by_name.get(name)?;
        let copy = copy_of(self.alloc, bytes.as_slice()).ok()?;
        Some(Cursor::new(copy))
    }

    fn target(&mut self, alloc: Global, name: &str) -> Result<Target, FileFault> {
        let path = String::from_str(alloc, name)?;
        if self.by_name.contains_key(name) {
            Ok(Target::File(path))
        } else {
            Ok(Target::NewFile(path))
        }
    }

    fn is_same(&mut self, name: &str, other: &str) -> bool {
        name == other
    }

    fn lock(&mut self, name: &str) -> Option<()> {
        self.by_name.contains_key(name).then_some(())
    }

    fn lock_new(&mut self, name: &str) -> Option<()> {
        if self.by_name.contains_key(name) {
            return None;
        }
        match self.put(name, Vec::new(self.alloc)) {
            Ok(()) => Some(()),
            Err(_) => None,
        }
    }

    fn create(&mut self, _name: &str) -> Option<Vec<u8>> {
        Some(Vec::new(self.alloc))
    }

    fn open_device(&mut self, _name: &str) -> Option<Vec<u8>> {
        None
    }

    fn keep(&mut self, writer: Vec<u8>, _from: &str, to: &str) -> bool {
        match self.put(to, writer) {
            Ok(()) => true,
            Err(_) => false,
        }
    }

    fn remove(&mut self, name: &str) {
        self.by_name.remove(name);
    }

    fn open_store(&mut self, name: &str) -> Option<MemoryStore> {
        if !self.by_name.contains_key(name) {
            return self.make_store(name);
        }
        let bytes = self.by_name.get(name)?;
        let held = copy_of(self.alloc, bytes.as_slice()).ok()?;
        Some(MemoryStore::new(held))
    }

    fn close_store(&mut self, store: MemoryStore, name: &str) {
        if let Some(bytes) = self.by_name.get_mut(name) {
            *bytes = store.into_bytes();
        }
    }

    fn input(&mut self) -> Cursor<Vec<u8>> {
        let left = Vec::new(self.alloc);
        Cursor::new(mem::replace(&mut self.input, left))
    }

    fn watch(&mut self) -> Unwatched {
        Unwatched
    }

    fn remark(&mut self, _line: &str) {}

    fn explain(&mut self, _sentence: &str) {}

    fn trouble(
        &mut self,
        alloc: Global,
        _name: &str,
        _access: Access,
    ) -> Result<String, AllocError> {
        String::from_str(alloc, "it is no file in memory")
    }
}
