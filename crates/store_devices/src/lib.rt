//! A reader or a writer of std as a device of the block store.
//!
//! [`Counted`] keeps what its calls moved and how many of them failed in a [`History`] that exists in
//! contracts alone: it takes no memory, and the count has no greatest. [`StoreFile`] is the file of a
//! store, [`StoreReader`] reads it from its first byte on, and [`read_placed`] a record where it lies
//! ([`Places`]). [`Blocks`] is a chain of which the blocks are read so.
#![tactic(auto)]

ghost use Rattle.std.specs.Prelude.{◌≡◌, suc, OnOk, OnErr};
ghost use Rattle.std.specs.Io.KnownBytes.{Keeps};
ghost use Rattle.store_devices.specs.History.{cut_back, fresh};
ghost use Rattle.store_devices.specs.StoreFile.{CutsBack, MayCutBack};

mod blocks;
mod history;
mod placed;
mod places;
mod store_file;
mod store_reader;

use crate::history::Call;
use block_store::{CountedRead, CountedWrite, DeviceError};
pub use blocks::Blocks;
pub use history::History;
pub use placed::{BlockFault, read_exact_from, read_placed};
pub use places::Places;
use std::io::{Read, Write};
pub use store_file::StoreFile;
pub use store_reader::StoreReader;

/// A reader or a writer with the history of its calls. Each error is a failed call, an interrupted
/// one too, and so is a write that takes no byte.
///
/// A file hands each write to the system before it answers. That the bytes are on the disk is
/// promised by [`Counted::sync`] alone. A `BufWriter` takes bytes that it writes later, so its errors
/// may come after an append that was done: put none in between.
///
/// A file that was read to its end, and is written there, has moved the bytes that it holds.
#[derive(Drop)]
pub struct Counted<D: Drop> {
    device: D,
    history: History,
    is_at_end: bool,
}

impl<D: Drop> Counted<D> {
    /// The device, before its first call.
    pub fn new(device: D) -> Counted<D>
        ensures device { result.device ≡ device }
        ensures history { result.history ≡ fresh }
    {
        Counted::with_history(device, History::new())
    }

    /// The device behind the calls of this history.
    pub fn with_history(device: D, history: History) -> Counted<D>
        ensures device { result.device ≡ device }
        ensures history { result.history ≡ history }
    {
        Counted {
            device,
            history,
            is_at_end: false,
        }
    }

    /// The reader or writer itself, for calls that are not counted.
    pub fn get_ref(&self) -> &D
        ensures { result.now ≡ self.now.device }
    {
        &self.device
    }

    /// The reader or writer itself.
    pub fn into_inner(self) -> D
        ensures { result ≡ self.device }
    {
        self.device
    }
}

impl<D: Read + Drop> CountedRead for Counted<D> {
    ghost use Rattle.std.specs.Prelude.{IsTrue};

    ghost taken = { λ c. c.history.moved };

    ghost remaining = { λ c. D.remaining c.device };

    ghost failures = { λ c. c.history.failures };

    ghost IsAtEnd = { λ c. IsTrue c.is_at_end };

    fn read(&mut self, buffer: &mut [u8]) -> Result<usize, DeviceError> {
        match self.device.read(buffer) {
            Ok(count) => {
                self.history = self.history.and(&Call::Moved(&buffer[..count]));
                self.is_at_end = count == 0;
                Ok(count)
            }
            Err(_) => {
                self.history = self.history.and(&Call::Failed);
                Err(DeviceError)
            }
        }
    }
}

impl<D: Write + Drop> CountedWrite for Counted<D> {
    ghost written = { λ c. c.history.moved };

    ghost contents = { λ c. D.contents c.device };

    ghost failures = { λ c. c.history.failures };

    fn write(&mut self, bytes: &[u8]) -> Result<usize, DeviceError> {
        match self.device.write(bytes) {
            Ok(count) if count > 0 => {
                self.history = self.history.and(&Call::Moved(&bytes[..count]));
                Ok(count)
            }
            _ => {
                self.history = self.history.and(&Call::Failed);
                Err(DeviceError)
            }
        }
    }
}

impl<D: StoreFile> Counted<D> {
    /// Takes so many bytes away from the end of a file. An error is a failed call; then the history
    /// has them still, and the file may have them or not.
    pub fn cut_back(&mut self, count: usize) -> Result<(), DeviceError>
        ensures cut { OnOk result
            (self.new.history.moved ≡ cut_back count self.old.history.moved) }
        ensures known { OnOk result
            (CutsBack count (D.contents self.old.device) (D.contents self.new.device)) }
        ensures failed { OnErr result ((self.new.history.moved ≡ self.old.history.moved)
            × (self.new.history.failures ≡ suc self.old.history.failures)) }
        ensures left { OnErr result
            (MayCutBack count (D.contents self.old.device) (D.contents self.new.device)) }
        ensures counted { OnOk result
            (self.new.history.failures ≡ self.old.history.failures) }
        ensures synced { self.new.history.synced ≡ self.old.history.synced }
    {
        match self.device.cut_back(count) {
            Ok(()) => {
                self.history = self.history.and(&Call::CutBack(count));
                Ok(())
            }
            Err(_) => {
                self.history = self.history.and(&Call::Failed);
                Err(DeviceError)
            }
        }
    }

    /// Waits until all that a file holds is on the disk. An error is a failed call; then it may be
    /// there or not.
    pub fn sync(&mut self) -> Result<(), DeviceError>
        ensures synced { OnOk result
            (self.new.history.synced ≡ self.new.history.moved) }
        ensures known { OnOk result (Keeps (D.contents self.new.device) (D.on_disk self.new.device)) }
        ensures kept { Keeps (D.contents self.old.device) (D.contents self.new.device) }
        ensures moved { self.new.history.moved ≡ self.old.history.moved }
        ensures failed { OnErr result
            (self.new.history.failures ≡ suc self.old.history.failures) }
        ensures counted { OnOk result
            (self.new.history.failures ≡ self.old.history.failures) }
    {
        match self.device.sync() {
            Ok(()) => {
                self.history = self.history.and(&Call::Synced);
                Ok(())
            }
            Err(_) => {
                self.history = self.history.and(&Call::Failed);
                Err(DeviceError)
            }
        }
    }
}
