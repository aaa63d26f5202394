//! The bytes of memberships.

ghost use Rattle.std.specs.Prelude.{◌≤◌};
ghost use Rattle.std.specs.List.{AllByRecursion};
ghost use Rattle.fab_types.specs.Memberships.{IsMembers};
ghost use Rattle.fab_types.specs.Spelling.{few_bytes, member_bytes, member_key_bytes, membership_bytes};
ghost use Rattle.fab_types.specs.Within.{IsMember, IsMemberKey, IsMembership};

use crate::membership::{Member, MemberKey, Members, Membership};
use crate::spelled::{Spelled, write_few};
use std::alloc::AllocError;

impl Spelled for MemberKey {
    ghost spelling = { member_key_bytes };

    ghost within = { IsMemberKey };

    fn write(&self, out: &mut Vec<u8>) -> Result<(), AllocError> {
        match self {
            MemberKey::Kept => Ok(out.push(0)?),
            MemberKey::Public(bytes) => {
                out.push(1)?;
                out.extend_from_slice(bytes)
            }
        }
    }
}

impl Spelled for Member {
    ghost spelling = { member_bytes };

    ghost within = { IsMember };

    fn write(&self, out: &mut Vec<u8>) -> Result<(), AllocError> {
        self.name.write(out)?;
        self.key.write(out)
    }
}

impl Spelled for Members {
    ghost spelling = { few_bytes member_bytes };

    ghost within = { λ ms. IsMembers ms × AllByRecursion IsMember ms };

    fn write(&self, out: &mut Vec<u8>) -> Result<(), AllocError> {
        write_few(self.as_slice(), out)
    }
}

impl Spelled for Membership {
    ghost spelling = { membership_bytes };

    ghost within = { IsMembership };

    fn write(&self, out: &mut Vec<u8>) -> Result<(), AllocError> {
        out.push(1)?;
        out.extend_from_slice(&self.serial.to_be_bytes())?;
        self.members.write(out)?;
        self.policy.write(out)
    }
}
