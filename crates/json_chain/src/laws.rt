//! Laws of who is shown as standing.

ghost use Rattle.std.specs.Prelude.{◌≡◌, ◌-◌, None, option_map, slice_get, take, ℕ};
ghost use Rattle.std.specs.FinMap.{get};
ghost use Rattle.fab_types.specs.Memberships.{membership_key};
ghost use Rattle.ledger_model.specs.Chain.{Chain};
ghost use Rattle.endorsement_policy.specs.Endorsed.{Listed};
ghost use Rattle.endorsement_policy.specs.Judge.{orgs_behind, plain_after};
ghost use Rattle.endorsement_policy.specs.Membership.{usable_membership};
ghost use Rattle.ledger_setting.specs.Amended.{AreNamed};
ghost use Rattle.json_chain.specs.Blocks.{block_json};
ghost use Rattle.json_chain.specs.Standing.{IsChainOf, blocks_json, membership_behind, orgs_before};

/// Who is shown as standing is who the judge takes: behind a ledger's chain the membership of the
/// last VALID amendment is the one that stands in the state (`behind`), so those who are shown as
/// standing before a block stand in the state there (`before`), and each block is shown by them
/// (`shown`). Each upgrade of it is of a chaincode with a name (`named`).
pub fn who_is_shown_stands()
    ensures behind { (r : Listed) (chain : Chain) → IsChainOf r chain → membership_behind None chain
        ≡ usable_membership r.installed.orgs (get (plain_after chain) membership_key) }
    ensures before { (r : Listed) (chain : Chain) → IsChainOf r chain → (number : ℕ) →
        orgs_before r number chain ≡ orgs_behind r (take (number - 1) chain) }
    ensures shown { (r : Listed) (chain : Chain) → IsChainOf r chain → (place : ℕ) →
        slice_get (blocks_json r None chain) place
        ≡ option_map (block_json (orgs_behind r (take place chain))) (slice_get chain place) }
    ensures named { (r : Listed) (chain : Chain) → IsChainOf r chain → AreNamed chain }
{}
