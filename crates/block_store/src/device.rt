//! What a store is read from and written to.

ghost use Rattle.std.specs.Prelude.{ℕ, List, Option, None, ◌<◌, length};
ghost use Rattle.std.specs.Io.KnownBytes.{ReadConsumes, WriteAppends};
ghost use Rattle.block_store.specs.Device.{ReadOnce, WroteOnce};

/// A call of the device failed.
#[derive(Clone, Copy, Debug, PartialEq, Eq)]
pub struct DeviceError;

/// A device that is read from its front on and counts its failed calls.
pub trait CountedRead {
    /// The bytes that it has handed out so far.
    ghost taken: { Self → List ℕ };

    /// The bytes that are left to be handed out, where they are known.
    ghost remaining: { Self → Option (List ℕ) } = { λ _. None };

    /// How many of its calls have failed.
    ghost failures: { Self → ℕ };

    /// Holds where it has said that there are no more bytes.
    ghost IsAtEnd: { Self → Type 0 };

    /// Fills the front of the buffer, and answers with how many bytes. It is 0 only at the end.
    fn read(&mut self, buffer: &mut [u8]) -> Result<usize, DeviceError>
        requires { 0 < length buffer.old }
        ensures once { ReadOnce result buffer.new (taken self.old) (taken self.new)
            (failures self.old) (failures self.new) (IsAtEnd self.new) }
        ensures known { ReadConsumes (remaining self.old) (remaining self.new) result buffer.new };
}

/// A device that takes bytes at its end and counts its failed calls. Whether bytes that it took
/// outlast a crash is for the device to say.
pub trait CountedWrite {
    /// The bytes that it has taken so far.
    ghost written: { Self → List ℕ };

    /// The bytes that it holds, where they are known.
    ghost contents: { Self → Option (List ℕ) } = { λ _. None };

    /// How many of its calls have failed. That no byte was written is a failure too.
    ghost failures: { Self → ℕ };

    /// Takes some of the bytes from the front, at least one, and answers with how many.
    fn write(&mut self, bytes: &[u8]) -> Result<usize, DeviceError>
        requires { 0 < length bytes.now }
        ensures once { WroteOnce result bytes.now (written self.old) (written self.new)
            (failures self.old) (failures self.new) }
        ensures known { WriteAppends (contents self.old) (contents self.new) result bytes.now };
}
