//! What a system begins with.

ghost use Rattle.std.specs.Prelude.{◌≤◌, length};
ghost use Rattle.fab_types.specs.declared.limits.TheConstants.{MOST_DATA_BYTES, MOST_PEERS, MOST_QUEUED, MOST_SEATS, MOST_TRANSACTIONS};

use chaincode_book::Book;
use endorsement_policy::Rules;
use fab_types::OrgName;
use org_keys::Signers;
use std::fmt::{self, Debug, Formatter, Write};
use std::sync::Arc;

/// What a system begins with. Its numbers are within the ledger's limits.
#[derive(Drop)]
pub struct Genesis {
    /// The chaincodes, and more modules that every peer has installed.
    pub book: Arc<Book>,
    /// The organisations with their keys, the policies of the chaincodes and that of upgrades, and
    /// what is installed.
    pub rules: Arc<Rules>,
    /// The seeds at hand, with which peers of public keys endorse.
    pub signers: Arc<Signers>,
    /// Each peer's organisation: 1 to 8 peers.
    pub peers: Vec<OrgName>,
    pub ghost peers_in_range: { (1 ≤ length peers.items) × (length peers.items ≤ MOST_PEERS) },
    /// How many proposals a peer can simulate at a time: 1 to 64.
    pub seats: usize,
    pub ghost seats_in_range: { (1 ≤ seats) × (seats ≤ MOST_SEATS) },
    /// How many envelopes the queue holds: 1 to 4,096.
    pub queue: usize,
    pub ghost queue_in_range: { (1 ≤ queue) × (queue ≤ MOST_QUEUED) },
    /// How many envelopes a batch holds at most: 1 to 512.
    pub count: usize,
    pub ghost count_in_range: { (1 ≤ count) × (count ≤ MOST_TRANSACTIONS) },
    /// How many bytes of envelopes a batch of several holds at most: 1 to 524,288.
    pub preferred: usize,
    pub ghost preferred_in_range: { (1 ≤ preferred) × (preferred ≤ MOST_DATA_BYTES) },
    /// How many bytes an envelope has at most: 1 to 524,288.
    pub absolute: usize,
    pub ghost absolute_in_range: { (1 ≤ absolute) × (absolute ≤ MOST_DATA_BYTES) },
    /// Whether batches are put in a legal order.
    pub reorder: bool,
}

/// Shared keys and seeds are not printed.
impl Debug for Genesis {
    fn fmt<W: Write>(&self, f: &mut Formatter<W>) -> fmt::Result {
        f.debug_struct("Genesis")
            .field("peers", &self.peers)
            .field("seats", &self.seats)
            .field("queue", &self.queue)
            .field("count", &self.count)
            .field("preferred", &self.preferred)
            .field("absolute", &self.absolute)
            .field("reorder", &self.reorder)
            .finish_non_exhaustive()
    }
}
