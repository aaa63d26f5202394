//! Memberships.
//!
//! Another form, another kind of key and names that do not ascend are not canonical; a number of
//! members that is not 1 to 16 is out of a limit.

ghost use Rattle.wire.specs.Reading.{amend_at, member_at, member_key_at, members_at, membership_at};

use crate::fault::WireFault;
use crate::item::{Item, read_some};
use crate::reader::Reader;
use fab_types::limits::MOST_ORGANISATIONS;
use fab_types::{Amend, Member, MemberKey, Members, Membership, OrgName, PolicyText};
use std::alloc::Global;

impl Item for MemberKey {
    ghost reads = { member_key_at };

    #[tactic(auto, unfolding(crate::specs::Reading::member_key_at))]
    fn read(_alloc: Global, reader: &mut Reader<'_>) -> Result<MemberKey, WireFault> {
        match reader.byte()? {
            0 => Ok(MemberKey::Kept),
            1 => Ok(MemberKey::Public(reader.array()?)),
            _ => Err(WireFault::NotCanonical),
        }
    }
}

impl Item for Member {
    ghost reads = { member_at };

    #[tactic(auto, unfolding(crate::specs::Reading::member_at))]
    fn read(alloc: Global, reader: &mut Reader<'_>) -> Result<Member, WireFault> {
        let name = OrgName::read(alloc, reader)?;
        let key = MemberKey::read(alloc, reader)?;
        Ok(Member { name, key })
    }
}

impl Item for Members {
    ghost reads = { members_at };

    #[tactic(auto, unfolding(crate::specs::Reading::members_at))]
    fn read(alloc: Global, reader: &mut Reader<'_>) -> Result<Members, WireFault> {
        let items = read_some(alloc, reader, MOST_ORGANISATIONS as u8)?;
        Members::new(items).ok_or(WireFault::NotCanonical)
    }
}

impl Item for Membership {
    ghost reads = { membership_at };

    #[tactic(auto, unfolding(crate::specs::Reading::membership_at))]
    fn read(alloc: Global, reader: &mut Reader<'_>) -> Result<Membership, WireFault> {
        if reader.byte()? != 1 {
            return Err(WireFault::NotCanonical);
        }
        let serial = reader.u32()?;
        let members = Members::read(alloc, reader)?;
        let policy = PolicyText::read(alloc, reader)?;
        Ok(Membership {
            serial,
            members,
            policy,
        })
    }
}

impl Item for Amend {
    ghost reads = { amend_at };

    #[tactic(auto, unfolding(crate::specs::Reading::amend_at))]
    fn read(alloc: Global, reader: &mut Reader<'_>) -> Result<Amend, WireFault> {
        let membership = Membership::read(alloc, reader)?;
        let nonce = reader.array()?;
        Ok(Amend { membership, nonce })
    }
}
