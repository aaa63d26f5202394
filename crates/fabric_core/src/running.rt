//! Runs.

ghost use Rattle.std.specs.Prelude.{◌≡◌, ◌++◌, ◌∷◌, [], ℕ, true, Some, length, slice_get, IfOk, OnOk, OnErr};
ghost use Rattle.ledger_model.specs.Chain.{Chain};
ghost use Rattle.fab_types.specs.declared.block.Block.{Block};
ghost use Rattle.committer.specs.Fits.{Fits, blocks_of};
ghost use Rattle.ledger_setting.specs.Rule.{right_of, table_of};
ghost use Rattle.simulator.specs.Execution.{exec_of};
ghost use Rattle.fabric_core.specs.System.{Reply, chain_of};
ghost use Rattle.ledger_setting.specs.Limits.{limits_of};
ghost use Rattle.fabric_core.specs.Inside.{rules_of, TakesStep, KeepsRules};
ghost use Rattle.fabric_core.specs.Headline.{IsRun, IsHonest, ConflictsAreOlder};

use crate::event::{Event, Reply};
use crate::system::System;
use endorsement_policy::an_endorsed_envelope_carries_a_right_tag;
use ledger_setting::Genesis;
use orderer::ordering_laws;
use simulator::reads_alone;
use std::alloc::{AllocError, Global};
use std::marker::Model;

/// A system after some steps, and what it replied to them.
#[derive(Drop)]
pub struct Ran {
    pub system: System,
    pub replies: Vec<Reply>,
    /// Whether memory was refused, so that there are events that were no steps.
    pub refused: bool,
}

impl Ran {
    /// One step more. Where memory is refused, the system and the replies stay.
    fn advance(&mut self, event: &Event) -> Result<(), AllocError>
        ensures step { OnOk result
            ((reply : Reply) × TakesStep self.old.system self.new.system event.now reply ×
            (self.new.replies.items ≡ self.old.replies.items ++ reply ∷ [])) }
        ensures system { OnErr result (self.new.system ≡ self.old.system) }
        ensures replies { OnErr result (self.new.replies.items ≡ self.old.replies.items) }
        ensures keeps { KeepsRules self.old.system self.new.system }
        ensures refused { self.new.refused ≡ self.old.refused }
    {
        self.replies.reserve(1)?;
        let event = event.clone()?;
        let reply = self.system.step(event)?;
        self.replies.push_reserved(reply);
        Ok(())
    }
}

/// The events in order, from the opening of the system on. Where memory is refused after the
/// opening, the system and the replies are those after the steps done.
pub fn run(alloc: Global, genesis: &Genesis, events: &[Event]) -> Result<Ran, AllocError>
    ensures run { IfOk result
        (λ ran. IsRun
        (rules_of (exec_of genesis.now.book.value) genesis.now.rules.value
        genesis.now.signers.value genesis.now.queue)
        genesis.now.peers.items genesis.now.seats (limits_of genesis.now) genesis.now.reorder
        events.now ran.replies.items ran.system.world ran.refused) }
    ensures book { IfOk result (λ ran. ran.system.book ≡ genesis.now.book.value) }
    ensures rules { IfOk result (λ ran. ran.system.rules ≡ genesis.now.rules.value) }
    ensures seeds { IfOk result (λ ran. ran.system.seeds ≡ genesis.now.signers.value) }
    ensures capacity { IfOk result (λ ran. ran.system.capacity ≡ genesis.now.queue) }
    ensures honest { IfOk result
        (λ ran. (peer : ℕ) (chain : Chain) →
        chain_of
        (rules_of (exec_of genesis.now.book.value) genesis.now.rules.value
        genesis.now.signers.value genesis.now.queue)
        ran.system.world peer
        ≡ Some chain →
        IsHonest (exec_of genesis.now.book.value) (table_of genesis.now.rules.value)
        (right_of genesis.now.rules.value) ran.replies.items chain) }
    ensures conflicts { IfOk result
        (λ ran. genesis.now.reorder ≡ true → (peer : ℕ) (chain : Chain) →
        chain_of
        (rules_of (exec_of genesis.now.book.value) genesis.now.rules.value
        genesis.now.signers.value genesis.now.queue)
        ran.system.world peer
        ≡ Some chain →
        ConflictsAreOlder chain) }
    ensures fits { IfOk result
        (λ ran. (peer : ℕ) (chain : Chain) (next : Block) →
        chain_of
        (rules_of (exec_of genesis.now.book.value) genesis.now.rules.value
        genesis.now.signers.value genesis.now.queue)
        ran.system.world peer
        ≡ Some chain →
        slice_get ran.system.world.orderer.chain (length chain) ≡ Some next →
        Fits (blocks_of chain) next) }
{
    ordering_laws();
    reads_alone(&genesis.book);
    an_endorsed_envelope_carries_a_right_tag(&genesis.rules);
    let mut ran = Ran {
        system: System::new(alloc, genesis)?,
        replies: Vec::new(alloc),
        refused: false,
    };
    for event in events {
        if ran.advance(event).is_err() {
            ran.refused = true;
            break;
        }
    }
    let _blocks = ran.system.blocks();
    Ok(ran)
}
