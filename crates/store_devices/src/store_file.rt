//! The file of a store.

ghost use Rattle.std.specs.Prelude.{◌≡◌, ℕ, Bool, true, false, List, Option, None, IsOk, IsSome, OnErr, OnOk};
ghost use Rattle.std.specs.Io.{ReadsAtMost};
ghost use Rattle.std.specs.Io.KnownBytes.{Keeps};
ghost use Rattle.store_devices.specs.StoreFile.{CutsBack, MayCutBack, ReadsFrom};

use std::fs::{File, OpenFile};
use std::io::{self, Seek, SeekFrom, Write};
use std::os::unix::fs::FileExt;

/// A file that is read at any place, and written at its end.
pub trait StoreFile: Write + Drop {
    /// Whether the bytes of each file of the type are known. Then no read of one fails.
    ghost is_known: { Bool } = { false };

    /// The bytes that are on the disk by the last sync, where they are known.
    ghost on_disk: { Self → Option (List ℕ) } = { λ _. None };

    /// Reads its bytes from a place on, counted from its first byte, into the front of the buffer,
    /// and answers with how many: none only at its end, or where the buffer has no room.
    fn read_at(&self, buffer: &mut [u8], place: u64) -> io::Result<usize>
        ensures bound { ReadsAtMost result buffer.new }
        ensures bytes { ReadsFrom (Self.contents self.now) place result buffer.new }
        ensures known { is_known ≡ true → IsSome (Self.contents self.now) × IsOk result };

    /// Takes so many bytes away from its end. Behind an error it may have them or not.
    fn cut_back(&mut self, count: usize) -> io::Result<()>
        ensures cut { OnOk result (CutsBack count (Self.contents self.old) (Self.contents self.new)) }
        ensures failed { OnErr result
            (MayCutBack count (Self.contents self.old) (Self.contents self.new)) };

    /// Waits until all that it holds is on the disk. Behind an error that may be there or not.
    fn sync(&mut self) -> io::Result<()>
        ensures kept { Keeps (Self.contents self.old) (Self.contents self.new) }
        ensures synced { OnOk result (Keeps (Self.contents self.new) (on_disk self.new)) };
}

impl StoreFile for File {
    fn read_at(&self, buffer: &mut [u8], place: u64) -> io::Result<usize> {
        FileExt::read_at(self, buffer, place)
    }

    fn cut_back(&mut self, count: usize) -> io::Result<()> {
        let length = self.seek(SeekFrom::End(0))?;
        let Some(left) = length.checked_sub(count as u64) else {
            return Err(io::Error::from(io::ErrorKind::UnexpectedEof));
        };
        self.seek(SeekFrom::Start(left))?;
        self.set_len(left)
    }

    fn sync(&mut self) -> io::Result<()> {
        self.sync_all()
    }
}
