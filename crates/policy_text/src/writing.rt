//! Policies as texts.

ghost use Rattle.std.specs.Prelude.{◌≡◌, ◌++◌, ℕ, List, IfOk, OnOk, codes, string_bytes};
ghost use Rattle.policy_language.specs.GoodSets.{Names};
ghost use Rattle.policy_language.specs.Limits.{IsText};
ghost use Rattle.policy_language.specs.View.{policies_of};
ghost use Rattle.policy_text.specs.Text.{each_text, name_text, policy_text};

use crate::ascii::ascii_text;
use fab_types::OrgName;
use policy_language::{Policies, Policy};
use std::alloc::{AllocError, Global};

/// The shortest text that spells a policy, without spaces. The only error is want of memory.
///
/// Where some text spells the policy within the limits, whatever the organisations, this one does
/// too: it is read as the same policy.
pub fn policy_text(alloc: Global, policy: &Policy) -> Result<String, AllocError>
    ensures value { IfOk result (λ s. string_bytes s ≡ policy_text policy.now) }
    ensures spelled { IfOk result
        (λ s. (orgs : Names) (text : List ℕ) → IsText orgs policy.now text →
        IsText orgs policy.now (string_bytes s)) }
{
    let mut text = String::new(alloc);
    write_policy(policy, &mut text)?;
    Ok(text)
}

/// The name of an organisation as text.
pub fn org_name(name: &OrgName) -> &str
    ensures { result.now ≡ name.now }
{
    ascii_text(name.as_slice())
}

/// Writes a policy behind a text.
#[cycle(policy)]
fn write_policy(policy: &Policy, text: &mut String) -> Result<(), AllocError>
    ensures { OnOk result
        (string_bytes text.new ≡ string_bytes text.old ++ policy_text policy.now) }
{
    match policy {
        Policy::Org(name) => write_name(org_name(name), text),
        Policy::And(children) => {
            text.push_str("AND(")?;
            write_children(children, text)
        }
        Policy::Or(children) => {
            text.push_str("OR(")?;
            write_children(children, text)
        }
        Policy::OutOf(threshold, children) => {
            write!(text, "OutOf({threshold},")?;
            write_children(children, text)
        }
    }
}

/// Writes an operator's children and its bracket behind a text.
#[cycle(policy)]
fn write_children(children: &Policies, text: &mut String) -> Result<(), AllocError>
    ensures { OnOk result
        (string_bytes text.new ≡ string_bytes text.old ++ (each_text children.now ++ codes ")")) }
{
    write_each(children.items(), text)?;
    text.push_str(")")
}

/// Writes policies behind a text, with commas between.
#[cycle(policy)]
fn write_each(policies: &[Policy], text: &mut String) -> Result<(), AllocError>
    ensures { OnOk result
        (string_bytes text.new ≡ string_bytes text.old ++ each_text (policies_of policies.now)) }
{
    match policies {
        [] => Ok(()),
        [last] => write_policy(last, text),
        [first, rest @ ..] => {
            write_policy(first, text)?;
            text.push_str(",")?;
            write_each(rest, text)
        }
    }
}

/// Writes a name in quotes behind a text.
fn write_name(name: &str, text: &mut String) -> Result<(), AllocError>
    ensures { OnOk result (string_bytes text.new ≡ string_bytes text.old ++ name_text name.now) }
{
    text.push_str("'")?;
    text.push_str(name)?;
    text.push_str("'")
}
