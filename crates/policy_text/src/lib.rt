//! The texts of policies: [`policy_text`] spells a policy in the one shortest way.
//!
//! Names stand in single quotes, operators as `AND(..)`, `OR(..)` and `OutOf(2,..)`, and no spaces
//! anywhere. A text that `policy_language` reads as a policy and the text that is written here
//! of that policy are read as the same one.
#![tactic(auto)]

mod ascii;
mod writing;

pub use ascii::ascii_text;
pub use writing::{org_name, policy_text};
