//! What a device has done, for contracts alone.

ghost use Rattle.std.specs.Prelude.{◌≡◌, ℕ, List};
ghost use Rattle.std.specs.Borrow.{ftrue};

use std::marker::Model;

/// The bytes that a device has moved, less those that were cut off again, how many of its calls have
/// failed, and the bytes that it had moved when it was synced last. It takes no memory, and its
/// functions do nothing at run time.
#[derive(Drop)]
pub struct History {
    ghost moved: { List ℕ },
    ghost failures: { ℕ },
    ghost synced: { List ℕ },
}

impl Model for History {
    ghost also_owns = { λ _. ftrue };
}

/// One call of a device.
#[derive(Clone, Copy, Drop)]
pub(crate) enum Call<'a> {
    Moved(&'a [u8]),
    /// So many bytes were taken away from the end.
    CutBack(usize),
    Synced,
    Failed,
}

impl History {
    ghost use Rattle.store_devices.specs.History.{after, fresh};

    /// Before the first call.
    pub(crate) fn new() -> History
        ensures { result ≡ fresh }
    {
        History {}
    }

    /// With one more call.
    #[inline(always)]
    pub(crate) fn and(&self, _call: &Call<'_>) -> History
        ensures { result ≡ after self.now _call.now }
    {
        History {}
    }
}
