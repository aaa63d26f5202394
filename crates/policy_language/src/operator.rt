//! Operators, before their children are read.

ghost use Rattle.std.specs.Prelude.{◌≡◌, ◌≤◌, length};
ghost use Rattle.policy_language.specs.Operators.{rule_of};
ghost use Rattle.policy_language.specs.Reading.{is_threshold, made};

use crate::policy::{Policies, Policy};

/// An operator over children that are still to come.
#[derive(Clone, Copy, Drop)]
pub(crate) enum Operator {
    And,
    Or,
    OutOf(u32),
}

impl Operator {
    /// The operator over these children, of which there is one or more. None if its threshold is 0
    /// or above their number.
    pub(crate) fn over(self, children: Vec<Policy>) -> Option<Policy>
        requires { 1 ≤ length children.items }
        ensures { result ≡ made is_threshold (rule_of self) children.items }
    {
        let count = children.len();
        let children = Policies::new(children)?;
        match self {
            Operator::And => Some(Policy::And(children)),
            Operator::Or => Some(Policy::Or(children)),
            Operator::OutOf(threshold) => {
                if threshold < 1 || threshold as usize > count {
                    return None;
                }
                Some(Policy::OutOf(threshold, children))
            }
        }
    }
}
