//! What the rounds of seats came to.

ghost use Rattle.std.specs.Prelude.{◌≡◌, ◌+◌, ◌<◌, ◌^◌};
ghost use Rattle.seat_threads.specs.Rounds.{no_rounds, rounds_in, with_refused, sum_of, least_refusal};

use crate::refusal::SeatsRefusal;
use peer_node::FinishRefusal;
use simulator::SimRefusal;

/// How many rounds ended in each way.
#[derive(Clone, Copy)]
pub struct Counts {
    /// Endorsed, and taken in by the intake.
    pub endorsed: u64,
    /// Refused by the chaincode, or stale by the time of the recheck (401 to 405).
    pub refused: u64,
    /// Refused for want of memory (9).
    pub out_of_memory: u64,
    /// Refused since the cell was not entered (432).
    pub not_entered: u64,
}

impl Counts {
    /// No rounds.
    pub(crate) fn none() -> Counts
        ensures { result ≡ no_rounds }
    {
        Counts {
            endorsed: 0,
            refused: 0,
            out_of_memory: 0,
            not_entered: 0,
        }
    }

    /// Counts one more round, which was refused.
    pub(crate) fn refuse(&mut self, refusal: FinishRefusal)
        requires { rounds_in self.old + 1 < 2 ^ 64 }
        ensures { self.new ≡ with_refused refusal self.old }
    {
        match refusal {
            FinishRefusal::Simulation(SimRefusal::Memory) => self.out_of_memory += 1,
            FinishRefusal::Simulation(_) => self.refused += 1,
            FinishRefusal::NotEntered => self.not_entered += 1,
        }
    }

    /// The rounds of both.
    pub(crate) fn plus(self, other: Counts) -> Counts
        requires { rounds_in self + rounds_in other < 2 ^ 64 }
        ensures { result ≡ sum_of self other }
    {
        Counts {
            endorsed: self.endorsed + other.endorsed,
            refused: self.refused + other.refused,
            out_of_memory: self.out_of_memory + other.out_of_memory,
            not_entered: self.not_entered + other.not_entered,
        }
    }

    /// The least refusal other than the chaincode's, if there was one.
    pub(crate) fn refusal(self) -> Option<SeatsRefusal>
        ensures { result ≡ least_refusal self }
    {
        if self.out_of_memory > 0 {
            Some(SeatsRefusal::Memory)
        } else if self.not_entered > 0 {
            Some(SeatsRefusal::NotEntered)
        } else {
            None
        }
    }
}
