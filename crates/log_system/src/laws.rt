//! What holds of machines that read one log.

ghost use Rattle.std.specs.Prelude.{◌≡◌, ◌≢◌, ◌<◌, ◌≤◌, ◌++◌, [], ℕ, Bool, List, Option};
ghost use Rattle.std.specs.Prelude.{◌⊎◌, Result, Ok, Err, Some, true, length, map, slice_get};
ghost use Rattle.fab_types.specs.declared.block.Block.{Block};
ghost use Rattle.fab_types.specs.declared.envelope.Endorsement.{Endorsement};
ghost use Rattle.fab_types.specs.Payloads.{Payload};
ghost use Rattle.fab_types.specs.declared.proposal.Proposal.{Proposal};
ghost use Rattle.batch_cutter.specs.Division.{Limits};
ghost use Rattle.orderer.specs.Ordering.{AreLimits, Ordering};
ghost use Rattle.orderer.specs.declared.report.BatchReport.{BatchReport};
ghost use Rattle.log_orderer.specs.Log.{ReadsEach};
ghost use Rattle.log_orderer.specs.Reported.{answer_of};
ghost use Rattle.log_orderer.specs.declared.replica.LineReport.{LineReport};
ghost use Rattle.ledger_model.specs.Chain.{Bytes, Chain, Committed};
ghost use Rattle.ledger_model.specs.Judged.{BlockRule, judged_chain};
ghost use Rattle.ledger_model.specs.Serial.{IsPrefix};
ghost use Rattle.ledger_model.specs.Views.{Plain};
ghost use Rattle.committer.specs.Fits.{Fits, blocks_of};
ghost use Rattle.chaincode_book.specs.Books.{Book};
ghost use Rattle.ledger_setting.specs.Rule.{right_of, table_of};
ghost use Rattle.simulator.specs.Answers.{Answers};
ghost use Rattle.simulator.specs.Execution.{IsPartOf, exec_of};
ghost use Rattle.simulator.specs.declared.refusal.SimRefusal.{SimRefusal};
ghost use Rattle.simulator.specs.declared.refusal.SimRefusal.TheVariants as refusal;
ghost use Rattle.store_replay.specs.Lawful.{AreLawful};
ghost use Rattle.log_committer.specs.Committing.{Receives};
ghost use Rattle.log_committer.specs.Peering.{HasEach, Held, ReadsLine, made_by};
ghost use Rattle.log_committer.specs.declared.receiving.Received.{Received};
ghost use Rattle.endorser.specs.Endorsing.{endorsed_on};
ghost use Rattle.log_committer.specs.declared.receiving.Received.TheVariants as received;
ghost use Rattle.fabric_core.specs.System.{chain_of_first};
ghost use Rattle.fabric_core.specs.Headline.{ConflictsAreOlder, IsAmong, IsHonest};
ghost use Rattle.log_system.specs.Cuts.{IsCut};
ghost use Rattle.log_system.specs.Machines.{Act, AreMachines, Does, DoesEach, IsRead, Machine};
ghost use Rattle.log_system.specs.Machines.{Endorses, Joins, Setting, endorsing_at, endorsing_with};
ghost use Rattle.log_system.specs.Machines.{unread};
ghost use Rattle.log_system.specs.OneSystem.{IsOneSystem, replies_of_machines};
ghost use Rattle.log_system.specs.Peers.{Deed, DoesDeeds, IsMachine, begun, calls_of, lines_of};
ghost use Rattle.log_system.specs.Restarts.{AreToldApart, ReceivesEach};

use chaincode_book::Book;
use endorsement_policy::{Rules, an_endorsed_envelope_carries_a_right_tag};
use log_committer::peers_agree;
use log_orderer::{a_cut_log_reads_on, log_laws};
use orderer::ordering_laws;
use simulator::{parts_answer_alike, reads_alone};

/// Machines that go by one genesis, and of which each has read a beginning of one list of lines,
/// are one system, with any number of seats and any queue: a run of it has what the log and the
/// machines answered in its replies, and leaves the orderer with the log's chain and each peer with
/// a machine's.
pub fn apart()
    ensures { (setting : Setting) (seats capacity : ℕ) (lines : List (List ℕ))
        (answers : List (Option (List BatchReport))) (log : Ordering) (machines : List Machine) →
        AreLimits setting.limits → 0 < seats → 0 < capacity →
        ReadsEach (unread setting) lines answers log → AreMachines setting lines machines →
        IsOneSystem setting seats capacity lines answers log machines }
{
    ordering_laws();
    log_laws();
}

/// What the roles of a log do are acts of such machines. Who has read a beginning of the lines has
/// given the first of the log's answers. A block of the log that a committer takes is the next one
/// of its chain; and what an endorser answers, but for want of memory, is what its machine answers
/// (`endorser`). One with the same genesis that has fewer modules at hand than the setting answers
/// so too, or 406 for what is not at hand there (`part`).
pub fn roles_act()
    ensures replica { (setting : Setting) (front back : List (List ℕ))
        (answers some : List (Option (List BatchReport))) (log replica : Ordering) →
        ReadsEach (unread setting) (front ++ back) answers log →
        ReadsEach (unread setting) front some replica →
        (later : List (Option (List BatchReport))) × (answers ≡ some ++ later) }
    ensures committer { (setting : Setting) (lines : List (List ℕ)) (org : Bytes) (place : ℕ)
        (block : Block) (old new : Chain) → IsRead setting lines place block →
        Receives (table_of setting.listed) old block (Ok received.Committed) new →
        (c : Committed) × (c.block ≡ block) × Does setting lines org old (Joins c) new }
    ensures endorser { (setting : Setting) (lines : List (List ℕ)) (org : Bytes) (chain : Chain)
        (p : Proposal) (result : Result (Payload × Endorsement) SimRefusal) →
        result ≢ Err refusal.Memory →
        Answers (endorsed_on (endorsing_at setting org) p chain) result →
        Does setting lines org chain (Endorses p result) chain }
    ensures part { (setting : Setting) (lines : List (List ℕ)) (org : Bytes) (chain : Chain)
        (book : Book) (p : Proposal) (result : Result (Payload × Endorsement) SimRefusal) →
        IsPartOf book setting.book → result ≢ Err refusal.Memory →
        Answers (endorsed_on (endorsing_with book setting org) p chain) result →
        (result ≡ Err refusal.NotInstalled) ⊎ Does setting lines org chain (Endorses p result) chain }
{
    log_laws();
    parts_answer_alike();
}

/// Each machine's chain is that of the log's first blocks, flagged by the rule (`first`), so that
/// of two machines one has a beginning of the other's (`one`). The log's block behind it fits
/// (`fits`). Where batches are put in a legal order, conflicts differed before their block
/// (`conflicts`).
pub fn machines_follow_the_log()
    ensures first { (setting : Setting) (lines : List (List ℕ))
        (answers : List (Option (List BatchReport))) (log : Ordering) (machines : List Machine)
        (m : Machine) → ReadsEach (unread setting) lines answers log →
        AreMachines setting lines machines → IsAmong m machines →
        m.chain ≡ chain_of_first (table_of setting.listed) log.chain (length m.chain) }
    ensures one { (setting : Setting) (lines : List (List ℕ))
        (answers : List (Option (List BatchReport))) (log : Ordering) (machines : List Machine)
        (m n : Machine) → ReadsEach (unread setting) lines answers log →
        AreMachines setting lines machines → IsAmong m machines → IsAmong n machines →
        IsPrefix m.chain n.chain ⊎ IsPrefix n.chain m.chain }
    ensures fits { (setting : Setting) (lines : List (List ℕ))
        (answers : List (Option (List BatchReport))) (log : Ordering) (machines : List Machine)
        (m : Machine) (next : Block) → ReadsEach (unread setting) lines answers log →
        AreMachines setting lines machines → IsAmong m machines →
        slice_get log.chain (length m.chain) ≡ Some next → Fits (blocks_of m.chain) next }
    ensures conflicts { (setting : Setting) (lines : List (List ℕ))
        (answers : List (Option (List BatchReport))) (log : Ordering) (machines : List Machine)
        (m : Machine) → setting.reorder ≡ true → ReadsEach (unread setting) lines answers log →
        AreMachines setting lines machines → IsAmong m machines → ConflictsAreOlder m.chain }
{
    log_laws();
}

/// Each machine's chain is honest, whatever organisations put on payloads, where what was handed
/// out is what the machines answered: its flags are the table's, and where each VALID transaction
/// has a right tag that a machine answered for this very payload, as they have where no right tag
/// was forged, it is serial. Which tags are right is by who stands before their block.
pub fn machines_are_honest(book: &Book, rules: &Rules)
    ensures { (seal : Plain → Bytes → Payload → Endorsement) (limits : Limits) (reorder : Bool)
        (lines : List (List ℕ)) (answers : List (Option (List BatchReport))) (log : Ordering)
        (machines : List Machine) (m : Machine) →
        ReadsEach
        (unread
        (record {
          book = book.now;
          listed = rules.now;
          seal = seal;
          limits = limits;
          reorder = reorder;
        })) lines answers log →
        AreMachines
        (record {
          book = book.now;
          listed = rules.now;
          seal = seal;
          limits = limits;
          reorder = reorder;
        }) lines machines →
        IsAmong m machines →
        IsHonest (exec_of book.now) (table_of rules.now) (right_of rules.now)
        (replies_of_machines machines) m.chain }
{
    log_laws();
    reads_alone(book);
    an_endorsed_envelope_carries_a_right_tag(rules);
}

/// A machine that begins again with the chain of its store, lawful as `StoredChain::open` finds it,
/// and receives the blocks that the log makes from the first on, none of which is refused: its chain
/// begins with the log's (`begins`). Where it is no longer than that, it is the chain of a machine
/// that committed the log's blocks from nothing (`joins`), so that the laws of machines hold of it,
/// whatever stood in the store; and what a machine of this organisation did before, from an empty
/// chain on, with the commits of the blocks behind its chain then, is what one machine did
/// (`goes_on`), so that the laws hold of what it answered before it was cut off, too. The premise
/// is that no block of the store has the header hash of another block of the log.
pub fn a_restart_follows_the_log()
    ensures begins { (setting : Setting) (lines : List (List ℕ))
        (answers : List (Option (List BatchReport))) (log : Ordering) (stored new : Chain) →
        ReadsEach (unread setting) lines answers log →
        AreLawful (table_of setting.listed) [] stored →
        AreToldApart (blocks_of stored) log.chain →
        ReceivesEach (table_of setting.listed) stored log.chain new →
        IsPrefix (judged_chain (table_of setting.listed) log.chain) new }
    ensures joins { (setting : Setting) (lines : List (List ℕ))
        (answers : List (Option (List BatchReport))) (log : Ordering) (org : Bytes)
        (stored new : Chain) → ReadsEach (unread setting) lines answers log →
        AreLawful (table_of setting.listed) [] stored →
        AreToldApart (blocks_of stored) log.chain →
        ReceivesEach (table_of setting.listed) stored log.chain new →
        length new ≤ length log.chain → DoesEach setting lines org [] (map Joins new) new }
    ensures goes_on { (setting : Setting) (lines : List (List ℕ))
        (answers : List (Option (List BatchReport))) (log : Ordering) (org : Bytes)
        (acts : List Act) (before stored new : Chain) →
        ReadsEach (unread setting) lines answers log →
        DoesEach setting lines org [] acts before →
        AreLawful (table_of setting.listed) [] stored →
        AreToldApart (blocks_of stored) log.chain →
        ReceivesEach (table_of setting.listed) stored log.chain new →
        length new ≤ length log.chain →
        (rest : Chain) × (before ++ rest ≡ new)
        × DoesEach setting lines org [] (acts ++ map Joins rest) new }
{
    log_laws();
    peers_agree();
}

/// What a peer of a log does, whatever its store had. Its chain has each block that the lines made,
/// by the hash of its header (`has`). What it has is one, by what it had and what it did (`one`), and
/// so is what a line comes to (`line`).
///
/// A peer that began with a lawful stored chain, read the first lines of a log, answered calls
/// between them on the chain that it had then, and has caught up with its store, is a machine beside
/// that log: it answers the same calls in the same order, those too that it answered before it had
/// caught up (`machine`). So the laws of machines hold of it. The premise is that no block of the
/// store has the header hash of another block of the lines that it read.
pub fn a_peer_is_a_machine()
    ensures has { (setting : Setting) (org : Bytes) (stored : Chain) (deeds : List Deed)
        (new : Held) → DoesDeeds setting org (begun setting stored) deeds new →
        HasEach new.log.chain new.chain }
    ensures one { (setting : Setting) (org : Bytes) (old new other : Held) (deeds : List Deed) →
        DoesDeeds setting org old deeds new → DoesDeeds setting org old deeds other →
        new ≡ other }
    ensures line { (rule : BlockRule) (old new other : Held) (line : Bytes)
        (report said : LineReport) (told tells : List Received) →
        ReadsLine rule old line report told new → ReadsLine rule old line said tells other →
        (answer_of report ≡ answer_of said) × (made_by report ≡ made_by said)
        × (told ≡ tells) × (new ≡ other) }
    ensures machine { (setting : Setting) (later : List (List ℕ)) (org : Bytes) (stored : Chain)
        (deeds : List Deed) (new : Held) → AreLawful (table_of setting.listed) [] stored →
        DoesDeeds setting org (begun setting stored) deeds new →
        AreToldApart (blocks_of stored) new.log.chain →
        length new.chain ≤ length new.log.chain →
        IsMachine setting (lines_of deeds ++ later) org (calls_of deeds) new.chain }
{
    log_laws();
    peers_agree();
}

/// Machines beside a log that is cut are machines beside that log. So the laws of machines hold of
/// them, wherever the log of each was cut.
pub fn a_cut_log_is_one_log()
    ensures { (setting : Setting) (lines cut : List (List ℕ)) (org : Bytes) (acts : List Act)
        (old new : Chain) → IsCut setting lines cut → DoesEach setting cut org old acts new →
        DoesEach setting lines org old acts new }
{
    log_laws();
    a_cut_log_reads_on();
}
