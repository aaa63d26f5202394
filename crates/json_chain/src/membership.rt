//! Memberships as JSON.

ghost use Rattle.std.specs.Prelude.{◌≡◌, OnOk};
ghost use Rattle.json_chain.specs.Members.{members_in};
ghost use Rattle.json_chain.specs.Memberships.{with_key, member_json, membership_json};

use crate::object::Object;
use crate::texts::policy_of;
use crate::to_json::ToJson;
use fab_types::{Member, MemberKey, Membership};
use serde_json::Value;
use std::alloc::{AllocError, Global};

/// Puts in a member's public key, if it has one of its own.
fn put_key(object: &mut Object, key: &MemberKey) -> Result<(), AllocError>
    ensures { OnOk result (members_in object.new ≡ with_key key.now (members_in object.old)) }
{
    match key {
        MemberKey::Kept => Ok(()),
        MemberKey::Public(bytes) => object.put_hex("public", bytes),
    }
}

impl ToJson for Member {
    ghost json = { member_json };

    fn to_json(&self, alloc: Global) -> Result<Value, AllocError> {
        let mut object = Object::new(alloc);
        object.put_json("name", &self.name)?;
        put_key(&mut object, &self.key)?;
        Ok(object.into_value())
    }
}

impl ToJson for Membership {
    ghost json = { membership_json };

    fn to_json(&self, alloc: Global) -> Result<Value, AllocError> {
        let mut object = Object::new(alloc);
        object.put_list("members", self.members.as_slice())?;
        object.put_text("policy", policy_of(&self.policy))?;
        object.put("serial", Value::from(self.serial))?;
        Ok(object.into_value())
    }
}
