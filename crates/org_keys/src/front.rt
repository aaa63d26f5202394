//! What stands in front of what is signed for one ledger alone.

ghost use Rattle.std.specs.Prelude.{◌≡◌};
ghost use Rattle.org_keys.specs.Keys.{tag_front};

/// What stands in front of the bytes that are signed for the ledger whose genesis file has this
/// SHA-256. It begins as no payload does.
pub(crate) fn tag_front(ledger: &[u8; 32]) -> [u8; 37]
    ensures { result ≡ tag_front ledger.now }
{
    let mut front = [0; 37];
    front[..5].copy_from_slice(b"\xfftag ");
    front[5..37].copy_from_slice(ledger);
    front
}
