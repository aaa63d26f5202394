//! Organisations in a line.

ghost use Rattle.std.specs.Prelude.{IfOk, IfErr};
ghost use Rattle.json_fields.specs.Lists.{AreItems};
ghost use Rattle.serde_json.specs.View.{items_view, view};
ghost use Rattle.json_events.specs.Refused.{NoneIs};
ghost use Rattle.json_questions.specs.Spelling.{AreOrgs, IsOrg};

use crate::asked_orgs::AskedOrgs;
use fab_types::OrgName;
use json_events::BadLine;
use serde_json::Value;
use std::alloc::Global;

/// The organisations whose names the items of a list are, up to 32.
pub(crate) fn orgs(alloc: Global, values: &[Value]) -> Result<AskedOrgs, BadLine>
    ensures ok { IfOk result (λ s. AreOrgs (items_view values.now) s) }
    ensures refused { IfErr result (λ r. NoneIs (AreOrgs (items_view values.now)) r) }
{
    let found = each_org(alloc, values)?;
    match AskedOrgs::new(found) {
        Some(orgs) => Ok(orgs),
        None => Err(BadLine::NoForm),
    }
}

/// The name that each item is, in order.
fn each_org(alloc: Global, values: &[Value]) -> Result<Vec<OrgName>, BadLine>
    ensures ok { IfOk result (λ v. AreItems IsOrg (items_view values.now) v.items) }
    ensures refused { IfErr result (λ r. NoneIs (AreItems IsOrg (items_view values.now)) r) }
{
    let mut found = Vec::new(alloc);
    'items: for value in values {
        found.push(org(value)?)?;
    }
    Ok(found)
}

/// The name that a value is.
fn org(value: &Value) -> Result<OrgName, BadLine>
    ensures ok { IfOk result (λ n. IsOrg (view value.now) n) }
    ensures refused { IfErr result (λ r. NoneIs (IsOrg (view value.now)) r) }
{
    let Some(text) = json_fields::text(value) else {
        return Err(BadLine::NoForm);
    };
    match OrgName::from_slice(text.as_bytes()) {
        Some(name) => Ok(name),
        None => Err(BadLine::NoForm),
    }
}
