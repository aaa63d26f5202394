//! The bytes of keys, bounds, values, names and policies: their length, and what they are made of.

ghost use Rattle.std.specs.Prelude.{◌≡◌, ◌^◌, ◌<◌, ◌++◌, OnOk, length};
ghost use Rattle.fab_types.specs.Limits.{IsBound, IsKey, IsName, IsOrgName, IsPolicyText, IsValue};
ghost use Rattle.fab_types.specs.Spelling.{long_bytes, short_bytes};

use crate::bound::Bound;
use crate::definition::PolicyText;
use crate::key::Key;
use crate::name::Name;
use crate::org_name::OrgName;
use crate::spelled::Spelled;
use crate::value::Value;
use std::alloc::AllocError;

fn write_short(text: &[u8], out: &mut Vec<u8>) -> Result<(), AllocError>
    requires { length text.now < 2 ^ 8 }
    ensures { OnOk result (out.new.items ≡ out.old.items ++ short_bytes text.now) }
{
    out.push(text.len() as u8)?;
    out.extend_from_slice(text)
}

fn write_long(text: &[u8], out: &mut Vec<u8>) -> Result<(), AllocError>
    requires { length text.now < 2 ^ 16 }
    ensures { OnOk result (out.new.items ≡ out.old.items ++ long_bytes text.now) }
{
    let len = text.len() as u16;
    out.extend_from_slice(&len.to_be_bytes())?;
    out.extend_from_slice(text)
}

impl Spelled for Key {
    ghost spelling = { short_bytes };

    ghost within = { IsKey };

    fn write(&self, out: &mut Vec<u8>) -> Result<(), AllocError> {
        write_short(self.as_slice(), out)
    }
}

impl Spelled for Bound {
    ghost spelling = { short_bytes };

    ghost within = { IsBound };

    fn write(&self, out: &mut Vec<u8>) -> Result<(), AllocError> {
        write_short(self.as_slice(), out)
    }
}

impl Spelled for Name {
    ghost spelling = { short_bytes };

    ghost within = { IsName };

    fn write(&self, out: &mut Vec<u8>) -> Result<(), AllocError> {
        write_short(self.as_slice(), out)
    }
}

impl Spelled for OrgName {
    ghost spelling = { short_bytes };

    ghost within = { IsOrgName };

    fn write(&self, out: &mut Vec<u8>) -> Result<(), AllocError> {
        write_short(self.as_slice(), out)
    }
}

impl Spelled for Value {
    ghost spelling = { long_bytes };

    ghost within = { IsValue };

    fn write(&self, out: &mut Vec<u8>) -> Result<(), AllocError> {
        write_long(self.as_slice(), out)
    }
}

impl Spelled for PolicyText {
    ghost spelling = { long_bytes };

    ghost within = { IsPolicyText };

    fn write(&self, out: &mut Vec<u8>) -> Result<(), AllocError> {
        write_long(self.as_slice(), out)
    }
}
