//! The names that stand in a text.

ghost use Rattle.std.specs.Prelude.{◌≡◌, IfOk};
ghost use Rattle.policy_language.specs.Names.{name_in_front, names_in_text};

use crate::reader::name_bytes;
use fab_types::OrgName;
use std::alloc::{AllocError, Global};

/// Each name of an organisation that stands behind a quote in a text, in the text's order and as
/// often as it stands there: the names that a policy of this text can be of. The only error is want
/// of memory.
pub fn names_in_text(alloc: Global, text: &[u8]) -> Result<Vec<OrgName>, AllocError>
    ensures { IfOk result (λ v. v.items ≡ names_in_text text.now) }
{
    let mut names = Vec::new(alloc);
    let mut rest = text;
    while let [byte, behind @ ..] = rest {
        if *byte == b'\''
            && let Some(name) = name_in_front(behind)
        {
            names.push(name)?;
        }
        rest = behind;
    }
    Ok(names)
}

/// The name at the front of a text, as far as its characters go on.
fn name_in_front(text: &[u8]) -> Option<OrgName>
    ensures { result ≡ name_in_front text.now }
{
    OrgName::from_slice(&text[..name_bytes(text)])
}
