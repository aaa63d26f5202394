//! What holds of all who read one log.

ghost use Rattle.std.specs.Prelude.{◌≡◌, ◌≤◌, ◌++◌, [], ℕ, List, Option, Some, codes, length};
ghost use Rattle.batch_cutter.specs.Division.{Mark};
ghost use Rattle.fab_types.specs.Editions.{last_block};
ghost use Rattle.fab_types.specs.declared.envelope.Envelope.{Envelope};
ghost use Rattle.orderer.specs.Adding.{BeginsWith};
ghost use Rattle.orderer.specs.Ordering.{AreLimits, IsOpening, Ordering};
ghost use Rattle.orderer.specs.declared.report.BatchReport.{BatchReport};
ghost use Rattle.log_orderer.specs.Lines.{IsMark};
ghost use Rattle.log_orderer.specs.Log.{Reads, ReadsEach};
ghost use Rattle.log_orderer.specs.Marks.{CutsAgain, marks_of};

use orderer::ordering_laws;
use wire::spellings_differ;

/// What holds of all who read one log of lines from one state on. A line has one mark or none.
/// They give the same answers and are in the same state then; who has read less has a beginning of
/// the chain; and it is the same to read on from where one stopped. A tick with nothing waiting
/// changes nothing.
pub fn log_laws()
    ensures mark { (line : List ℕ) (a b : Mark Envelope) → IsMark line a → IsMark line b → a ≡ b }
    ensures one { (old new other : Ordering) (lines : List (List ℕ))
        (answers left : List (Option (List BatchReport))) →
        ReadsEach old lines answers new → ReadsEach old lines left other →
        (answers ≡ left) × (new ≡ other) }
    ensures behind { (old new behind : Ordering) (front back : List (List ℕ))
        (answers some : List (Option (List BatchReport))) →
        ReadsEach old (front ++ back) answers new → ReadsEach old front some behind →
        BeginsWith behind.chain new.chain }
    ensures onward { (old between new : Ordering) (front back : List (List ℕ))
        (first later : List (Option (List BatchReport))) →
        ReadsEach old front first between → ReadsEach between back later new →
        ReadsEach old (front ++ back) (first ++ later) new }
    ensures idle { (old new : Ordering) (answer : Option (List BatchReport)) →
        old.pending ≡ [] → length old.chain ≤ last_block old.edition →
        Reads old (codes "tick") answer new →
        (answer ≡ Some []) × (new ≡ old) }
{
    ordering_laws();
    spellings_differ();
}

/// A chain that a log made is cut again of its own marks, with reordering or without: who has read
/// nothing, and reads them, has that chain, and nothing waits.
pub fn a_chain_is_cut_again()
    ensures { (unread made : Ordering) (lines : List (List ℕ))
        (answers : List (Option (List BatchReport))) → IsOpening unread →
        AreLimits unread.limits → ReadsEach unread lines answers made →
        CutsAgain unread made.chain }
{}

/// A log that is cut where nothing waits reads on: the marks of the chain that its front made stand
/// for the front. Who has read nothing, and reads these and then the rest, gives to the rest the
/// log's answers, and is where the log is.
pub fn a_cut_log_reads_on()
    ensures { (unread here log : Ordering) (front back : List (List ℕ))
        (answers later : List (Option (List BatchReport))) → IsOpening unread →
        AreLimits unread.limits → ReadsEach unread front answers here → here.pending ≡ [] →
        ReadsEach here back later log →
        (again : List (Option (List BatchReport)))
        × ReadsEach unread (marks_of here.chain ++ back) (again ++ later) log }
{}
