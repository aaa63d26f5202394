//! What holds of every division.

ghost use Rattle.std.specs.Prelude.{◌≡◌, ℕ, ◌<◌, ◌≤◌, List, ◌∷◌, ◌++◌, map};
ghost use Rattle.batch_cutter.specs.Division.{Limits, Mark, message, IsEnd, IsOrdinary, IsPending, IsDivision, IsDivided, messages, concatenate};

use crate::cut::Weigh;

/// Any marks have one division, which has each message in its order. The division of some marks and
/// that of what they leave, followed by more marks, join to the division of all. An ordinary batch
/// ends at the first point that it can, and no such point stands after any message that waits.
pub fn division_laws<M: Weigh>()
    ensures some { (limits : Limits) (marks : List (Mark M)) → 0 < limits.count →
        IsDivided M.weight limits marks }
    ensures one { (limits : Limits) (marks : List (Mark M)) (batches others : List (List M))
        (pending rest : List M) →
        IsDivision M.weight limits marks batches pending →
        IsDivision M.weight limits marks others rest → (batches ≡ others) × (pending ≡ rest) }
    ensures join { (limits : Limits) (marks next : List (Mark M)) (batches more : List (List M))
        (pending rest : List M) →
        IsDivision M.weight limits marks batches pending →
        IsDivision M.weight limits (map message pending ++ next) more rest →
        IsDivision M.weight limits (marks ++ next) (batches ++ more) rest }
    ensures all { (limits : Limits) (marks : List (Mark M)) (batches : List (List M))
        (pending : List M) →
        IsDivision M.weight limits marks batches pending →
        messages marks ≡ concatenate batches ++ pending }
    ensures first { (limits : Limits) (front : List M) (m : M) (back : List M)
        (after : List (Mark M)) →
        IsOrdinary M.weight limits (front ++ m ∷ back) after →
        IsEnd M.weight limits front (message m ∷ map message back ++ after) → ⊥ }
    ensures none { (limits : Limits) (front back : List M) →
        IsPending M.weight limits (front ++ back) → IsEnd M.weight limits front (map message back) →
        ⊥ }
{}
