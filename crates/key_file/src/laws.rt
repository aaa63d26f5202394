//! A law of key files.

ghost use Rattle.std.specs.Prelude.{◌≡◌, List, ℕ};
ghost use Rattle.key_file.specs.KeyFiles.{AreSeeds};

/// Bytes spell at most one list of seeds.
pub fn spelled_once()
    ensures { (bytes : List ℕ) (a b : List (List ℕ)) → AreSeeds bytes a → AreSeeds bytes b → a ≡ b }
{}
