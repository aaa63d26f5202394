//! What the text of a log's line says where it is no mark of an orderer.

ghost use Rattle.std.specs.Prelude.{◌↔◌, ℕ, List, IsTrue};
ghost use Rattle.orderer.specs.Ordering.{Ordering};
ghost use Rattle.log_orderer.specs.Skipped.{IsSkippedBy};
ghost use Rattle.cli_peer.specs.Marks.{IsMarkOrNone, NamesAnotherIn};

use log_orderer::Skip;
use peer_answers::seen_in;

/// Whether a text names the file of a genesis by its digest, and another one than this.
pub(crate) fn names_another_genesis(text: &str, digest: &str) -> bool
    ensures { IsTrue result ↔ NamesAnotherIn digest.now text.now }
{
    match text.strip_prefix("genesis ") {
        Some(named) => named != digest,
        None => false,
    }
}

/// Whether a text that is no mark leaves open which genesis file counts: it names none, and tells
/// of no block that was seen.
pub(crate) fn leaves_genesis_open(text: &str) -> bool {
    !text.starts_with("genesis ") && seen_in(text).is_none()
}

/// Whether a skipped line is an envelope or `tick` all the same.
pub(crate) fn is_of_mark(skip: Skip) -> bool
    ensures { (old : Ordering) (line : List ℕ) → IsSkippedBy skip old line →
        IsMarkOrNone line result }
{
    match skip {
        Skip::TooLarge | Skip::NoNumber => true,
        Skip::NoHex
        | Skip::EndedEarly
        | Skip::EnvelopeLength
        | Skip::NotCanonical
        | Skip::Limit
        | Skip::BytesLeft => false,
    }
}
