//! Laws of lines.

ghost use Rattle.std.specs.Prelude.{◌≡◌, List, ℕ};
ghost use Rattle.fab_types.specs.declared.proposal.Proposal.{Proposal};
ghost use Rattle.json_events.specs.Same.{AsksSame};
ghost use Rattle.json_events.specs.Spelling.{Spells, SpellsProposal};
ghost use Rattle.json_events.specs.declared.action.Action.{Action};

/// A line spells at most one action.
pub fn a_line_spells_one_action()
    ensures { (line : List ℕ) (a b : Action) → Spells line a → Spells line b → AsksSame a b }
{}

/// A line spells at most one proposal.
pub fn a_line_spells_one_proposal()
    ensures { (line : List ℕ) (p q : Proposal) → SpellsProposal line p → SpellsProposal line q →
        p ≡ q }
{}
