//! The laws of texts.

ghost use Rattle.std.specs.Prelude.{◌≡◌, List, ℕ};
ghost use Rattle.policy_language.specs.GoodSets.{Names};
ghost use Rattle.policy_language.specs.Limits.{IsText};
ghost use Rattle.policy_language.specs.Names.{names_in_text};
ghost use Rattle.policy_language.specs.declared.policy.Policy.{Policy};

/// A text spells at most one policy.
pub fn spelled_once()
    ensures { (orgs : Names) (a b : Policy) (text : List ℕ) → IsText orgs a text →
        IsText orgs b text → a ≡ b }
{}

/// Where a text spells a policy of organisations, whichever they are, it spells it of those alone
/// whose names stand in the text.
pub fn its_own_names_suffice()
    ensures { (orgs : Names) (p : Policy) (text : List ℕ) → IsText orgs p text →
        IsText (names_in_text text) p text }
{}
