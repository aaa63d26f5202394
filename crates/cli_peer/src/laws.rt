//! The law of what lines are answered.

ghost use Rattle.std.specs.Prelude.{◌≡◌, ◌⊎◌, ℕ, List};
ghost use Rattle.ledger_model.specs.Chain.{Bytes};
ghost use Rattle.peer_answers.specs.Answering.{Peer};
ghost use Rattle.cli_peer.specs.Alike.{AreAlike, ReadsBack, logged_in};
ghost use Rattle.cli_peer.specs.Filters.{AreDone};
ghost use Rattle.cli_peer.specs.Logged.{Reached};
ghost use Rattle.cli_peer.specs.Peering.{DoesLine};

use json_events::a_line_spells_one_proposal;
use json_questions::a_line_spells_one_question;
use log_committer::peers_agree;
use log_orderer::log_laws;

/// A line has one answer. Two peers of one organisation, by one genesis and with the same seeds and
/// modules, that began with equal stores and have read the same lines of a log, whatever they were
/// asked between these, have the same chain and the same envelopes waiting (`state`). On such a
/// state a line is done in one way, with one text (`answer`), but for two cases. Of a line of the
/// log that is hex of bytes that spell no envelope, the number of the fault (301 to 305) may differ.
/// And a line that asks for blocks shows what the file gives back: of a disk nothing is known.
///
/// It leaves out a line that ends the command, and want of memory. The line's number in the input
/// is told of a bad line alone. It takes no time to run.
pub fn a_line_has_one_answer()
    ensures state { (p : Peer) (number count : ℕ) (old new other : Reached)
        (lines others : List Bytes) (text out : Bytes) →
        AreDone (DoesLine p) number old lines text new →
        AreDone (DoesLine p) count old others out other → logged_in lines ≡ logged_in others →
        new ≡ other }
    ensures answer { (p : Peer) (number : ℕ) (old new other : Reached) (l text out : Bytes) →
        DoesLine p number old l text new → DoesLine p number old l out other →
        (new ≡ other) × (AreAlike l text out ⊎ ReadsBack p l) }
{
    log_laws();
    peers_agree();
    a_line_spells_one_proposal();
    a_line_spells_one_question();
}
