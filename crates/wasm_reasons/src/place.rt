//! Places in a module, in words.

use crate::operators::operator_name;
use crate::section::{item_noun, section_name};
use std::fmt::{self, Display, Formatter, Write};

/// Where something stands in a module: in which section, in which of its items, at which of the
/// item's instructions, at which byte. What does not apply is `None`.
#[derive(Clone, Copy)]
pub(crate) struct Place<'a> {
    /// The id of the section.
    pub(crate) section: Option<u8>,
    pub(crate) item: Option<u32>,
    pub(crate) name: Name<'a>,
    /// How many instructions stand before it in the expression, `end` and `else` left out, and its
    /// opcode.
    pub(crate) instruction: Option<(u32, u8)>,
    /// The offset in bytes.
    pub(crate) offset: Option<usize>,
}

impl Place<'_> {
    /// No place.
    pub(crate) const NOWHERE: Place<'static> = Place {
        section: None,
        item: None,
        name: Name::NONE,
        instruction: None,
        offset: None,
    };
}

/// The place, for a sentence that begins with it.
impl Display for Place<'_> {
    fn fmt<W: Write>(&self, f: &mut Formatter<W>) -> fmt::Result {
        let Some(offset) = self.offset else {
            return Ok(());
        };
        match (self.section, self.item) {
            (Some(section), Some(item)) => {
                write!(f, "{} {item}{}, ", item_noun(section), self.name)?;
            }
            (Some(section), None) => write!(f, "{} section, ", section_name(section))?,
            (None, _) => {}
        }
        if let Some((number, opcode)) = self.instruction {
            match operator_name(opcode) {
                Some(name) => write!(f, "instruction {number} ({name}), ")?,
                None => write!(f, "instruction {number} (opcode {opcode:02x}), ")?,
            }
        }
        write!(f, "at byte {offset}: ")
    }
}

/// The name of an import or an export, behind that of the module where it is an import. It is empty
/// where there is none.
#[derive(Clone, Copy)]
pub(crate) struct Name<'a> {
    pub(crate) module: &'a str,
    pub(crate) name: &'a str,
}

impl Name<'_> {
    /// No name.
    pub(crate) const NONE: Name<'static> = Name {
        module: "",
        name: "",
    };
}

/// The name in parentheses, if it is short and plain.
impl Display for Name<'_> {
    fn fmt<W: Write>(&self, f: &mut Formatter<W>) -> fmt::Result {
        let Name { module, name } = *self;
        if name.is_empty() || !is_shown(module) || !is_shown(name) {
            return Ok(());
        }
        let dot = if module.is_empty() { "" } else { "." };
        write!(f, " ({module}{dot}{name})")
    }
}

/// Whether a name is shown: of 64 letters, digits and signs of ASCII at most.
fn is_shown(name: &str) -> bool {
    name.len() <= 64 && name.bytes().all(|byte| byte.is_ascii_graphic())
}
