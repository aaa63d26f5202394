//! What holds of every plan.

ghost use Rattle.std.specs.Prelude.{◌≡◌, ℕ, Bool, true, false, if◌then◌else◌, List, []};
ghost use Rattle.reorder.specs.declared.pick.Pick.{Pick};
ghost use Rattle.reorder.specs.Plan.{IsPlan, IsLegal, IsIn, waits, order_of, aborts_of, times_picked};

/// What holds of each plan: those that take part have at most one, which picks each of them once,
/// and no other, and places them in a legal order. Where some order of all of them is legal, none
/// is aborted.
pub fn plan_laws()
    ensures one { (n : ℕ) (edge : ℕ → ℕ → Bool) (left : List Bool) (picks others : List Pick) →
        IsPlan n edge left picks → IsPlan n edge left others → picks ≡ others }
    ensures once { (n : ℕ) (edge : ℕ → ℕ → Bool) (left : List Bool) (picks : List Pick) (k : ℕ) →
        IsPlan n edge left picks → times_picked k picks ≡ (if waits left k then 1 else 0) }
    ensures legal { (n : ℕ) (edge : ℕ → ℕ → Bool) (left : List Bool) (picks : List Pick) →
        IsPlan n edge left picks → IsLegal edge (order_of picks) }
    ensures none_aborted { (n : ℕ) (edge : ℕ → ℕ → Bool) (left : List Bool) (picks : List Pick)
        (order : List ℕ) →
        ((k : ℕ) → edge k k ≡ false) → IsLegal edge order →
        ((k : ℕ) → waits left k ≡ true → IsIn k order) → IsPlan n edge left picks →
        aborts_of picks ≡ [] }
{}
