//! The desk at which envelopes are taken, ordered and committed.

ghost use Rattle.std.specs.Prelude.{◌≡◌, List, [], ◌∷◌, ◌++◌, false};
ghost use Rattle.fab_types.specs.declared.envelope.Envelope.{Envelope};
ghost use Rattle.intake.specs.Mail.{NoneMissing};
ghost use Rattle.intake.specs.Seats.{intake_of_sender, intake_of_receiver, number, put, knows};
ghost use Rattle.orderer.specs.Ordering.{AreLimits};
ghost use Rattle.peer_node.specs.Writers.{published_chain};
ghost use Rattle.seat_threads.specs.Desks.{HasOrdered, HasCut, HasFirst, IsInStep, IsAtWork, IsSameDesk};

use crate::committing::commit_rest;
use envelope_ordering::{cut, give};
use fab_types::Envelope;
use intake::{ReceiverSeat, SenderSeat};
use orderer::{Orderer, ordering_laws};
use peer_node::PeerWriter;
use std::sync::Wait;
use std::sync::atomic::{AtomicU64, Ordering};
use std::thread::{self, Threads};

/// Where envelopes are taken, ordered and committed. It is ended by `close`.
pub struct Desk {
    pub receiver: ReceiverSeat,
    pub orderer: Orderer,
    pub writer: PeerWriter,
    /// How many envelopes the orderer refused (421 and 422), as far as 64 bits count.
    pub missing: u64,
    /// Whether the orderer or a commit was refused memory. From then on nothing is committed.
    pub starved: bool,
}

impl Desk {
    /// The desk of a peer without blocks, and of an orderer without blocks.
    pub fn new(receiver: ReceiverSeat, orderer: Orderer, writer: PeerWriter) -> Desk
        requires limits { AreLimits orderer.limits }
        requires opening { (orderer.pending ≡ []) × (orderer.chain ≡ []) }
        requires got { (knows receiver).got ≡ [] }
        requires published { published_chain writer ≡ [] }
        ensures work { IsAtWork result }
        ensures same { (result.receiver ≡ receiver) × (result.orderer ≡ orderer) ×
            (result.writer ≡ writer) }
    {
        ordering_laws();
        Desk {
            receiver,
            orderer,
            writer,
            missing: 0,
            starved: false,
        }
    }

    /// Takes in and orders the envelopes that are left: none is missing of the workers that were
    /// retired before.
    pub fn take_rest<R: Threads + Wait + Sync>(&mut self, rt: &R)
        requires { IsAtWork self.old }
        ensures work { IsAtWork self.new }
        ensures same { IsSameDesk self.new self.old }
        ensures known { ((knows self.new.receiver).known ≡ (knows self.old.receiver).known) ×
            ((knows self.new.receiver).senders ≡ (knows self.old.receiver).senders) }
        ensures none { NoneMissing (knows self.new.receiver) }
    {
        'takes: for _ in rt.forever() {
            match self.receiver.take(rt) {
                Some(envelope) => self.order(rt, envelope),
                None => break,
            }
        }
    }

    /// Takes in the seat of a worker that has ended.
    pub fn retire(&mut self, sender: SenderSeat)
        requires work { IsAtWork self.old }
        requires intake { intake_of_sender sender ≡ intake_of_receiver self.old.receiver }
        ensures work { IsAtWork self.new }
        ensures same { IsSameDesk self.new self.old }
        ensures known { (knows self.new.receiver).known
            ≡ (knows self.old.receiver).known ++ (number sender, put sender) ∷ [] }
        ensures senders { (knows self.new.receiver).senders ≡ (knows self.old.receiver).senders }
    {
        self.receiver.retire(sender);
    }

    /// Orders an envelope, and commits the blocks that come of it. One that the orderer refuses is
    /// dropped, and counted unless it was refused for want of memory.
    fn order<R: Threads + Wait + Sync>(&mut self, rt: &R, envelope: Envelope)
        requires { IsInStep self.old }
        ensures step { IsInStep self.new }
        ensures same { IsSameDesk self.new self.old }
        ensures receiver { self.new.receiver ≡ self.old.receiver }
        ensures ordered { (given : List Envelope) → HasOrdered given self.old →
            HasOrdered (given ++ envelope ∷ []) self.new }
    {
        match give(&mut self.orderer, &mut self.missing, envelope) {
            Ok(()) => self.commit_new(rt),
            Err(_) => self.starved = true,
        }
    }

    /// Cuts the envelopes that wait for their batch, and commits its block. Where that would need a
    /// number past the last one, they stay without a block.
    pub fn tick<R: Threads + Wait + Sync>(&mut self, rt: &R)
        requires { IsInStep self.old }
        ensures step { IsInStep self.new }
        ensures same { IsSameDesk self.new self.old }
        ensures receiver { self.new.receiver ≡ self.old.receiver }
        ensures cut { (given : List Envelope) → HasOrdered given self.old → HasCut given self.new }
    {
        match cut(&mut self.orderer) {
            Ok(()) => self.commit_new(rt),
            Err(_) => self.starved = true,
        }
    }

    /// Commits the blocks that the peer does not have, unless memory was refused before.
    fn commit_new<R: Threads + Wait + Sync>(&mut self, rt: &R)
        requires { HasFirst self.old }
        ensures step { IsInStep self.new }
        ensures starved { self.new.starved ≡ false → self.old.starved ≡ false }
        ensures same { IsSameDesk self.new self.old }
        ensures kept { (self.new.receiver ≡ self.old.receiver) ×
            (self.new.orderer ≡ self.old.orderer) × (self.new.missing ≡ self.old.missing) }
    {
        if !self.starved {
            self.starved = commit_rest(rt, &mut self.writer, self.orderer.blocks()).is_err();
        }
    }

    /// Ends the peer.
    pub fn close<R: Wait>(self, rt: &R) {
        let Desk {
            receiver,
            orderer,
            writer,
            missing: _,
            starved: _,
        } = self;
        drop(receiver);
        drop(orderer);
        writer.close(rt);
    }
}

/// Takes envelopes in and orders them until so many workers have ended and the intake is empty.
pub fn take_until_ended<R: Threads + Wait + Sync>(
    rt: &R,
    ended: &AtomicU64,
    workers: u64,
    desk: &mut Desk,
)
    requires { IsAtWork desk.old }
    ensures work { IsAtWork desk.new }
    ensures same { IsSameDesk desk.new desk.old }
    ensures known { ((knows desk.new.receiver).known ≡ (knows desk.old.receiver).known) ×
        ((knows desk.new.receiver).senders ≡ (knows desk.old.receiver).senders) }
    ensures none { NoneMissing (knows desk.new.receiver) }
{
    'takes: for _ in rt.forever() {
        let have_ended = ended.load(Ordering::SeqCst) >= workers;
        desk.take_rest(rt);
        if have_ended {
            break;
        }
        thread::yield_now();
    }
}
