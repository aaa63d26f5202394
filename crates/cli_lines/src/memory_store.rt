//! A store in memory, of which every byte is known.

ghost use Rattle.std.specs.Prelude.{◌≡◌};

use std::io::{self, Read, Write};
use store_devices::StoreFile;

/// The file of a store in memory. Nothing is lost there that it holds, so all of it counts as being
/// on a disk.
#[derive(Drop)]
pub struct MemoryStore {
    bytes: Vec<u8>,
}

impl MemoryStore {
    /// A file that holds these bytes.
    pub(crate) fn new(bytes: Vec<u8>) -> MemoryStore
        ensures { result.bytes ≡ bytes }
    {
        MemoryStore { bytes }
    }

    /// What it holds.
    pub(crate) fn into_bytes(self) -> Vec<u8>
        ensures { result ≡ self.bytes }
    {
        self.bytes
    }
}

impl Write for MemoryStore {
    ghost use Rattle.std.specs.Prelude.{Some};

    ghost contents = { λ store. Some store.bytes.items };

    fn write(&mut self, bytes: &[u8]) -> io::Result<usize> {
        self.bytes.write(bytes)
    }

    fn flush(&mut self) -> io::Result<()> {
        Ok(())
    }
}

impl StoreFile for MemoryStore {
    ghost use Rattle.std.specs.Prelude.{Some, true};

    ghost is_known = { true };

    ghost on_disk = { λ store. Some store.bytes.items };

    fn read_at(&self, buffer: &mut [u8], place: u64) -> io::Result<usize> {
        match self.bytes.get(place as usize..) {
            Some(mut left) => left.read(buffer),
            None => Ok(0),
        }
    }

    fn cut_back(&mut self, count: usize) -> io::Result<()> {
        let Some(left) = self.bytes.len().checked_sub(count) else {
            return Err(io::Error::from(io::ErrorKind::UnexpectedEof));
        };
        self.bytes.truncate(left);
        Ok(())
    }

    fn sync(&mut self) -> io::Result<()> {
        Ok(())
    }
}
