//! The law that peers of one log are one system. It takes no time to run.
#![tactic(auto)]

ghost use Rattle.std.specs.Prelude.{◌≡◌, ◌<◌, [], ℕ, IfSome, List, Option};
ghost use Rattle.std.specs.List.{AllByRecursion, AllZip};
ghost use Rattle.chaincode_book.specs.Books.{Book};
ghost use Rattle.ledger_model.specs.Chain.{Bytes};
ghost use Rattle.ledger_setting.specs.declared.genesis.Genesis.{Genesis};
ghost use Rattle.log_orderer.specs.Log.{ReadsEach};
ghost use Rattle.log_system.specs.Machines.{AreMachines, DoesEach, Machine, Setting, unread};
ghost use Rattle.log_system.specs.OneSystem.{IsOneSystem};
ghost use Rattle.orderer.specs.Ordering.{AreLimits, Ordering};
ghost use Rattle.orderer.specs.declared.report.BatchReport.{BatchReport};
ghost use Rattle.org_keys.specs.Signers.{Seeds};
ghost use Rattle.peer_answers.specs.Answering.{Peer};
ghost use Rattle.peer_laws.specs.Together.{Follower, Follows, GoesBy, HasGenesis, IsMachineOf};
ghost use Rattle.peer_laws.specs.Together.{setting_by};

use log_system::{a_cut_log_is_one_log, a_peer_is_a_machine, apart};
use simulator::parts_answer_alike;

/// Peers over lines that go by one setting, and of which each has read a beginning of one log, cut
/// or whole, and has caught up with its store, are one system. Each is a machine beside that log,
/// with the chain of the peer, and with the answers that the peer printed to calls (`machine`). So
/// the laws of machines hold of them, and all that they did is a run of one system (`system`). Peers
/// by one genesis go by one setting where those of one organisation have the same seeds, and each
/// has at hand some of the modules of one book (`goes`).
///
/// A call that is answered `bad`, 406, 409, 806 or 808 is none of the machine's. The premise is that
/// no block of a store has the header hash of another block that the log made.
pub fn peers_are_one_system()
    ensures goes { (genesis : Genesis) (book : Book) (seeds : Bytes → Seeds) (peer : Peer)
        (org : Bytes) → HasGenesis genesis book seeds peer → IfSome peer.org (λ own. own ≡ org) →
        GoesBy (setting_by genesis book seeds) org peer }
    ensures machine { (setting : Setting) (lines : List Bytes) (follower : Follower) →
        Follows setting lines follower →
        (m : Machine) × IsMachineOf follower m × DoesEach setting lines m.org [] m.acts m.chain }
    ensures system { (setting : Setting) (seats capacity : ℕ) (lines : List Bytes)
        (answers : List (Option (List BatchReport))) (log : Ordering) (followers : List Follower) →
        AreLimits setting.limits → 0 < seats → 0 < capacity →
        ReadsEach (unread setting) lines answers log →
        AllByRecursion (Follows setting lines) followers →
        (machines : List Machine) × AllZip IsMachineOf followers machines
        × AreMachines setting lines machines
        × IsOneSystem setting seats capacity lines answers log machines }
{
    parts_answer_alike();
    a_peer_is_a_machine();
    a_cut_log_is_one_log();
    apart();
}
