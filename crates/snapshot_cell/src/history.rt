//! The history of what was published. It exists in proofs alone: what threads share is a word, its
//! length.

ghost use Rattle.std.specs.Prelude.{◌≡◌, ◌+◌, ◌<◌, ◌^◌, ◌++◌, ◌∷◌, [], length, MatchBool, IsTrue};
ghost use mathlib.Core.List.{IsPrefix};
ghost use Rattle.snapshot_cell.specs.Rules.{head_of};

use fab_types::CommittedBlock;
use logbook::{Gain, Offer, Plain, Play, Rule, Seen, Start, Word};

/// The rule of the history.
pub struct Law;

impl Rule<CommittedBlock, u64> for Law {
    ghost use Rattle.std.specs.Prelude.{[]};
    ghost use base.Fml.{ftrue};
    ghost use Rattle.snapshot_cell.specs.Rules.{IsKept};

    ghost holds = { λ cells log. IsKept cells log };

    ghost first = { [] };

    ghost hinted = { λ n log. Unit {0} };

    ghost shows = { λ log. [] };

    ghost keeps = { λ names log. ftrue };

    ghost moves = { λ ask before after answer. Unit {0} };
}

/// Callers trade nothing.
pub struct Nothing;

impl Gain<CommittedBlock, u64> for Nothing {
    ghost use base.Fml.{ftrue};

    ghost after = { λ names about answer. ftrue };
}

/// A step that adds a block.
pub struct Add;

impl Play<CommittedBlock, u64> for Add {
    ghost use Rattle.snapshot_cell.specs.Rules.{Adds};

    ghost then = { Adds };
}

impl Plain<CommittedBlock, CommittedBlock, u64> for Add {
    ghost use Rattle.std.specs.Prelude.{None};

    ghost ask = { λ block. block };

    ghost state = { λ block. None };
}

/// The word that all threads share: the length of the history.
#[derive(Drop)]
pub struct History {
    head: Word<CommittedBlock, u64, Law>,
    pub ghost head_is: { head ≡ head_of head.book },
}

/// A beginning of the history that was reached. At run time it is its length alone.
#[derive(Drop)]
pub struct Front {
    count: u64,
    pub seen: Seen<CommittedBlock, u64, Law>,
    pub ghost counted: { count ≡ length seen.log },
}

impl History {
    /// A new history, and the front that has seen nothing.
    pub fn new() -> (History, Front)
        ensures { (result.0.head.book ≡ result.1.seen.book) × (result.1.seen.log ≡ []) }
    {
        let (seen, mut first, _second) = Seen::open(Start::alone(), 0, 0);
        let history = History {
            head: Word::tracked(0, &mut first),
        };
        (history, Front { count: 0, seen })
    }
}

impl Front {
    /// A copy.
    pub fn again(&self) -> Front
        ensures { result ≡ self.now }
    {
        Front {
            count: self.count,
            seen: self.seen.again(),
        }
    }

    /// Whether this one begins the other. If not, the other begins this one.
    pub fn begins(&self, other: &Front) -> bool
        requires { other.now.seen.book ≡ self.now.seen.book }
        ensures { MatchBool result (IsPrefix self.now.seen.log other.now.seen.log)
            (IsPrefix other.now.seen.log self.now.seen.log) }
    {
        let mut both = self.seen.again();
        both.learn(&other.seen);
        self.count <= other.count
    }

    /// Adds a block to all that was seen, and says whether it did. It did not where the history is
    /// longer.
    pub fn extend(&mut self, history: &History, block: &CommittedBlock) -> bool
        requires same { history.now.head.book ≡ self.old.seen.book }
        requires room { length self.old.seen.log < 2 ^ 62 }
        ensures same { self.new.seen.book ≡ self.old.seen.book }
        ensures log { IsTrue result → self.new.seen.log ≡ self.old.seen.log ++ block.now ∷ [] }
    {
        let mut offer: Offer<CommittedBlock, u64, Law, Nothing> = self
            .seen
            .plain::<Nothing, CommittedBlock, Add>(block);
        let mut pen = self.seen.no_pen();
        let count = self.count;
        let found = history
            .head
            .compare_exchange::<Add, Nothing>(
                count,
                count + 1,
                &mut self.seen,
                &mut offer,
                &mut pen,
            );
        self.count = if found == count { count + 1 } else { found };
        found == count
    }
}
