//! Laws of genesis files and modules files.

ghost use Rattle.std.specs.Prelude.{◌≡◌, List, ℕ};
ghost use Rattle.chaincode_book.specs.declared.book.Held.{Held};
ghost use Rattle.ledger_setting.specs.declared.genesis.Genesis.{Genesis};
ghost use Rattle.json_genesis.specs.Opening.{HoldsSame};
ghost use Rattle.json_genesis.specs.Spelling.{SpellsHolding, SpellsModules};

/// A text spells at most one genesis, with what is at hand.
pub fn spelled_once()
    ensures { (text : List ℕ) (held : List Held) (a b : Genesis) →
        SpellsHolding text held a → SpellsHolding text held b → HoldsSame a b }
{}

/// A text spells at most one list of modules.
pub fn modules_spelled_once()
    ensures { (text : List ℕ) (a b : List Held) →
        SpellsModules text a → SpellsModules text b → a ≡ b }
{}
