//! Namespaces of chaincodes.

ghost use Rattle.std.specs.Prelude.{◌≡◌, ◌++◌, ◌∷◌, []};
ghost use Rattle.fab_types.specs.Namespaces.{is_in_namespace, namespace};

use crate::edition::Edition;
use crate::name::Name;
use crate::short_bytes::ShortBytes;
use std::marker::Model;

/// What each key begins with that a chaincode may write. The bytes lie in the value itself.
#[derive(Debug, Drop)]
pub struct Namespace {
    bytes: ShortBytes<33>,
}

impl Model for Namespace {
    ghost use Rattle.std.specs.Prelude.{List, ℕ};

    ghost Value = { List ℕ };

    ghost view = { λ n. n.bytes };
}

impl Namespace {
    /// The namespace of a chaincode under an edition of the rules: all keys under rules 1, those
    /// below its name under rules 2. It takes no memory.
    pub fn of(edition: Edition, chaincode: &Name) -> Namespace
        ensures { result ≡ namespace edition chaincode.now }
    {
        match edition {
            Edition::First => Namespace::all(),
            Edition::Second => Namespace::below(chaincode),
        }
    }

    /// That of all keys. It takes no memory.
    pub fn all() -> Namespace
        ensures { result ≡ [] }
    {
        Namespace {
            bytes: ShortBytes::new(&[]),
        }
    }

    /// That of the keys that begin with a chaincode's name and `/`.
    fn below(chaincode: &Name) -> Namespace
        ensures { result ≡ chaincode.now ++ 47 ∷ [] }
    {
        let name = chaincode.as_slice();
        let mut bytes = [b'/'; 33];
        bytes[..name.len()].copy_from_slice(name);
        Namespace {
            bytes: ShortBytes::new(&bytes[..name.len() + 1]),
        }
    }

    /// Whether a key is in it.
    pub fn holds(&self, key: &[u8]) -> bool
        ensures { result ≡ is_in_namespace self.now key.now }
    {
        key.starts_with(self.bytes.as_slice())
    }
}
