//! The file of a store as it is read.

ghost use Rattle.std.specs.Prelude.{◌≡◌, IfSome};
ghost use Rattle.store_devices.specs.History.{fresh};
ghost use Rattle.store_devices.specs.StoreFile.{IsPiece};

use crate::history::{Call, History};
use crate::store_file::StoreFile;
use block_store::{CountedRead, DeviceError};

/// The file of a store as it is read from its first byte on, with the history of its calls. The
/// file stays what it is. Each error is a failed call, an interrupted one too.
#[derive(Drop)]
pub struct StoreReader<'a, D: Drop> {
    file: &'a D,
    history: History,
    /// How many bytes were read.
    place: u64,
    is_at_end: bool,
}

impl<'a, D: StoreFile> StoreReader<'a, D> {
    /// The file, before its first call.
    pub fn new(file: &'a D) -> StoreReader<'a, D>
        ensures file { result.file.now ≡ file.now }
        ensures place { result.place ≡ 0 }
        ensures history { result.history ≡ fresh }
    {
        StoreReader {
            file,
            history: History::new(),
            place: 0,
            is_at_end: false,
        }
    }

    /// What the file has done, for [`Counted::with_history`](crate::Counted::with_history).
    pub fn into_history(self) -> History
        ensures { result ≡ self.entry.history }
    {
        self.history
    }

    /// Reads on into the front of the buffer: how many bytes, and the place behind them. None where
    /// the call fails.
    fn piece(&self, buffer: &mut [u8]) -> Option<(usize, u64)>
        ensures { IfSome result
            (λ p. IsPiece (D.contents self.now.file.now) self.now.place p.0 p.1 buffer.new) }
    {
        let count = self.file.read_at(buffer, self.place).ok()?;
        let behind = self.place.checked_add(count as u64)?;
        Some((count, behind))
    }
}

impl<D: StoreFile> CountedRead for StoreReader<'_, D> {
    ghost use Rattle.std.specs.Prelude.{IsTrue};
    ghost use Rattle.store_devices.specs.StoreFile.{from_place};

    ghost taken = { λ r. r.history.moved };

    ghost remaining = { λ r. from_place r.place (D.contents r.file.now) };

    ghost failures = { λ r. r.history.failures };

    ghost IsAtEnd = { λ r. IsTrue r.is_at_end };

    fn read(&mut self, buffer: &mut [u8]) -> Result<usize, DeviceError> {
        match self.piece(buffer) {
            Some((count, behind)) => {
                self.history = self.history.and(&Call::Moved(&buffer[..count]));
                self.place = behind;
                self.is_at_end = count == 0;
                Ok(count)
            }
            None => {
                self.history = self.history.and(&Call::Failed);
                Err(DeviceError)
            }
        }
    }
}
