//! What an execution is given.

ghost use Rattle.std.specs.Prelude.{◌≡◌};
ghost use Rattle.fab_types.specs.Namespaces.{is_in_namespace};

use fab_types::{Namespace, Value};
use std::marker::Model;

/// What an execution is given: the argument of its proposal, and what each key begins with that its
/// chaincode may write.
#[derive(Debug, Drop)]
pub struct Given<'v> {
    argument: &'v Value,
    namespace: Namespace,
}

impl<'v> Model for Given<'v> {
    ghost use Rattle.host_api.specs.Given.{Given};

    ghost Value = { Given };

    ghost view = { λ g. record { argument = g.argument.now; namespace = g.namespace } };
}

impl<'v> Given<'v> {
    /// This argument, and the namespace of the chaincode.
    pub fn new(argument: &'v Value, namespace: Namespace) -> Self
        ensures { result ≡ record { argument = argument.now; namespace = namespace } }
    {
        Given {
            argument,
            namespace,
        }
    }

    /// The argument.
    pub fn argument(&self) -> &Value
        ensures { result.now ≡ self.now.argument }
    {
        self.argument
    }

    /// Whether a key is in the chaincode's namespace.
    pub fn is_own(&self, key: &[u8]) -> bool
        ensures { result ≡ is_in_namespace self.now.namespace key.now }
    {
        self.namespace.holds(key)
    }
}
