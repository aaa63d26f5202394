//! What an orderer makes of marks.

ghost use Rattle.std.specs.Prelude.{◌≡◌, ◌<◌, true, [], ◌∷◌, ◌++◌, List, length};
ghost use Rattle.batch_cutter.specs.Division.{Mark};
ghost use Rattle.fab_types.specs.Editions.{last_block};
ghost use Rattle.fab_types.specs.declared.envelope.Envelope.{Envelope};
ghost use Rattle.orderer.specs.declared.report.BatchReport.{BatchReport};
ghost use Rattle.orderer.specs.Blocks.{AreLegal};
ghost use Rattle.orderer.specs.Ordering.{Ordering, IsOrdered, IsOpening, RunsOut, Takes};

use batch_cutter::division_laws;
use fab_types::Envelope;

/// What holds of each orderer. One without blocks, where nothing waits, has made what no marks ask
/// for, and what it makes of one mark more is what all the marks ask for. Marks ask for one chain,
/// one step gives one answer, and where a block would be needed past the last one that the rules
/// allow each way of taking the mark goes past it. Where batches are put in a legal order, the blocks are of legal
/// order.
pub fn ordering_laws()
    ensures opening { (now : Ordering) → 0 < now.limits.count → IsOpening now → IsOrdered [] now }
    ensures step { (marks : List (Mark Envelope)) (old new : Ordering) (mark : Mark Envelope)
        (reports : List BatchReport) →
        IsOrdered marks old → Takes old mark reports new → IsOrdered (marks ++ mark ∷ []) new }
    ensures one { (marks : List (Mark Envelope)) (now other : Ordering) → IsOrdered marks now →
        IsOrdered marks other → now.edition ≡ other.edition → now.reorder ≡ other.reorder →
        now.limits ≡ other.limits → now ≡ other }
    ensures answer { (old new other : Ordering) (mark : Mark Envelope)
        (reports left : List BatchReport) →
        Takes old mark reports new → Takes old mark left other → (reports ≡ left) × (new ≡ other) }
    ensures past { (old new : Ordering) (mark : Mark Envelope) (reports : List BatchReport) →
        RunsOut old mark → Takes old mark reports new →
        last_block old.edition < length new.chain }
    ensures legal { (old new : Ordering) (mark : Mark Envelope) (reports : List BatchReport) →
        old.reorder ≡ true → Takes old mark reports new → AreLegal old.chain → AreLegal new.chain }
{
    division_laws::<Envelope>();
}
