//! The replica.

ghost use Rattle.std.specs.Prelude.{◌≡◌, ◌↔◌, ◌≤◌, ◌+◌, ℕ, List, [], IfOk, IsTrue, OnErr, OnOk, Some, length};
ghost use Rattle.std.specs.Vec.{vec_capacity};
ghost use Rattle.batch_cutter.specs.Division.{message, timeout};
ghost use Rattle.orderer.specs.Ordering.{AreLimits};
ghost use Rattle.orderer.specs.declared.report.OrderCause.TheVariants.{Memory};
ghost use Rattle.log_orderer.specs.Asking.{IsSkipOf, AnswersMark};
ghost use Rattle.log_orderer.specs.Handed.{HandsOut};
ghost use Rattle.orderer.specs.Headers.{hash_at};
ghost use Rattle.log_orderer.specs.Ids.{ids_of};
ghost use Rattle.log_orderer.specs.Lines.{IsMark};
ghost use Rattle.log_orderer.specs.Log.{Reads};
ghost use Rattle.log_orderer.specs.Reported.{answer_of, IsTrueOf};
ghost use Rattle.log_orderer.specs.Told.{TellsIds};
ghost use Rattle.wire.specs.Ids.{id_of};

use crate::asked::{Asked, Unread, asked_by};
use crate::batch::{LogBatch, Room, cut, cut_each};
use crate::skip::Skip;
use fab_types::{Edition, Envelope, Payload};
use orderer::{BlockMaker, OrderCause};
use seq::Seq;
use std::alloc::{AllocError, Global};
use std::marker::Model;
use wire::payload_id;

/// What became of a line.
#[derive(Debug, Drop)]
pub enum LineReport {
    /// Its envelope was taken.
    Accepted {
        /// The id of the envelope's transaction.
        id: [u8; 32],
        /// The batches that it ended, none to two, in their order.
        batches: Seq<LogBatch>,
    },
    /// What waited was cut, and this is its batch. None where nothing waited, which leaves all as
    /// it was.
    Ticked(Option<LogBatch>),
    /// It asks for nothing that can be done, and all is as it was.
    Skipped(Skip),
}

/// An orderer that reads a log line by line.
///
/// A line is an envelope in hex or the word `tick`. Any other line is skipped, and so is an
/// envelope above the absolute size and a line that would need a block past the last one of the
/// edition; all that waits waits on then. So equal replicas that read the same lines stay equal
/// (`log_laws`). Each block is handed out once, with the line that made it; what is kept of it is
/// the hash of its header, 32 bytes.
#[derive(Drop)]
pub struct Replica {
    maker: BlockMaker,
    /// The ids of the envelopes that wait.
    waiting: Vec<[u8; 32]>,
    alloc: Global,
}

impl Model for Replica {
    ghost use Rattle.std.specs.Prelude.{◌≡◌};
    ghost use Rattle.batch_cutter.specs.Division.{IsPending};
    ghost use Rattle.fab_types.specs.Size.{envelope_size};
    ghost use Rattle.orderer.specs.Ordering.{Ordering};
    ghost use Rattle.log_orderer.specs.Ids.{ids_of};

    ghost Value = { Ordering };

    ghost view = { λ r. r.maker };

    ghost invariant = { λ r. (r.waiting.items ≡ ids_of r.maker.pending) ×
        IsPending envelope_size r.maker.limits r.maker.pending };
}

impl Replica {
    /// A replica that has read nothing, under this edition of the ledger's rules.
    ///
    /// A batch has at most `count` envelopes, 1 to 512. Envelopes of at most `preferred` bytes
    /// together share a batch, and one above it is a batch alone; none above `absolute` bytes is
    /// taken. Both are at most 524,288. With `reorder` early abort and reordering act on each
    /// batch, else its block has the envelopes as they were cut.
    pub fn new(
        alloc: Global,
        edition: Edition,
        count: usize,
        preferred: usize,
        absolute: usize,
        reorder: bool,
    ) -> Self
        requires { AreLimits
            (record { count = count; preferred = preferred; absolute = absolute }) }
        ensures { result
            ≡ record {
              edition = edition;
              reorder = reorder;
              limits = record { count = count; preferred = preferred; absolute = absolute };
              pending = [];
              chain = [];
            } }
    {
        Replica {
            maker: BlockMaker::new(alloc, edition, count, preferred, absolute, reorder),
            waiting: Vec::new(alloc),
            alloc,
        }
    }

    /// Reads the next line of the log.
    ///
    /// The error is of memory. It changes nothing, so that the line can be read again; it never
    /// stands for a skip.
    pub fn read(&mut self, line: &str) -> Result<LineReport, AllocError>
        ensures read { IfOk result
            (λ report. Reads self.old line.now (answer_of report) self.new) }
        ensures ids { IfOk result (λ report. TellsIds report self.old line.now) }
        ensures blocks { IfOk result
            (λ report. HandsOut report self.old.chain self.new.chain) }
        ensures why { IfOk result (λ report. IsTrueOf report self.old line.now) }
        ensures unchanged { OnErr result (self.new ≡ self.old) }
    {
        match asked_by(self.alloc, line) {
            Ok(Asked::Accept(envelope)) => self.accept(envelope),
            Ok(Asked::Tick) => self.tick(),
            Err(Unread::Nothing(skip)) => Ok(LineReport::Skipped(skip)),
            Err(Unread::Memory) => Err(AllocError),
        }
    }

    /// Takes an envelope, or skips it.
    fn accept(&mut self, envelope: Envelope) -> Result<LineReport, AllocError>
        ensures answers { IfOk result
            (λ report. AnswersMark self.old (message envelope) report self.new) }
        ensures ids { IfOk result (λ report. (line : List ℕ) → IsMark line (message envelope) →
            TellsIds report self.old line) }
        ensures blocks { IfOk result
            (λ report. HandsOut report self.old.chain self.new.chain) }
        ensures unchanged { OnErr result (self.new ≡ self.old) }
    {
        let (id, room) = match prepared(self.alloc, &mut self.waiting, &envelope.payload) {
            Ok(parts) => parts,
            Err(error) => {
                drop(envelope);
                return Err(error);
            }
        };
        match self.maker.accept(envelope) {
            Ok(made) => {
                self.waiting.push(id).unwrap();
                let batches = cut_each(self.alloc, &mut self.waiting, made, room);
                Ok(LineReport::Accepted { id, batches })
            }
            Err(refusal) => {
                let cause = refusal.cause;
                drop(refusal);
                drop(room);
                skipped(cause)
            }
        }
    }

    /// Cuts what waits, or skips the tick.
    fn tick(&mut self) -> Result<LineReport, AllocError>
        ensures answers { IfOk result
            (λ report. AnswersMark self.old timeout report self.new) }
        ensures ids { IfOk result (λ report. (line : List ℕ) → IsMark line timeout →
            TellsIds report self.old line) }
        ensures blocks { IfOk result
            (λ report. HandsOut report self.old.chain self.new.chain) }
        ensures unchanged { OnErr result (self.new ≡ self.old) }
    {
        let room = Vec::with_capacity(self.alloc, self.waiting.len())?;
        match self.maker.tick() {
            Ok(None) => Ok(LineReport::Ticked(None)),
            Ok(Some(made)) => {
                let batch = cut(&mut self.waiting, made, room);
                Ok(LineReport::Ticked(Some(batch)))
            }
            Err(refusal) => {
                let cause = refusal.cause;
                drop(refusal);
                drop(room);
                skipped(cause)
            }
        }
    }

    /// The ids of the envelopes that wait, in their order.
    pub fn waiting(&self) -> &[[u8; 32]]
        ensures { result.now ≡ ids_of self.now.pending }
    {
        &self.waiting
    }

    /// Whether the block of this number, from 1 on, has a header with this hash.
    pub fn has_header(&self, number: u32, hash: &[u8; 32]) -> bool
        ensures { IsTrue result ↔ (hash_at self.now.chain number ≡ Some hash.now) }
    {
        self.maker.has_header(number, hash)
    }
}

/// The id of a transaction, with a place for it among those that wait, and room for what its
/// envelope ends. All memory is taken before the orderer is asked: what it did cannot be undone.
fn prepared(
    alloc: Global,
    waiting: &mut Vec<[u8; 32]>,
    payload: &Payload,
) -> Result<([u8; 32], Room), AllocError>
    ensures same { waiting.new.items ≡ waiting.old.items }
    ensures place { OnOk result (length waiting.new.items + 1 ≤ vec_capacity waiting.new) }
    ensures id { IfOk result (λ r. r.0 ≡ id_of payload.now.proposal) }
    ensures batches { IfOk result (λ r. (r.1.batches.items ≡ []) ×
        (2 ≤ vec_capacity r.1.batches)) }
    ensures ids { IfOk result (λ r. (r.1.ids.items ≡ []) ×
        (length waiting.old.items + 1 ≤ vec_capacity r.1.ids)) }
{
    let id = payload_id(payload);
    waiting.reserve(1)?;
    let room = Room::new(alloc, waiting.len() + 1)?;
    Ok((id, room))
}

/// What a refusal of the orderer makes of a line: a skip, but for want of memory.
fn skipped(cause: OrderCause) -> Result<LineReport, AllocError>
    ensures skip { IfOk result (λ report. IsSkipOf cause report) }
    ensures memory { OnErr result (cause ≡ Memory) }
{
    match cause {
        OrderCause::TooLarge => Ok(LineReport::Skipped(Skip::TooLarge)),
        OrderCause::NoNumber => Ok(LineReport::Skipped(Skip::NoNumber)),
        OrderCause::Memory => Err(AllocError),
    }
}
