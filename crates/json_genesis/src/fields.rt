//! The fields of the objects in the file.

ghost use Rattle.std.specs.Prelude.{◌≡◌, ◌≢◌, ℕ, List, Option, MatchOption, codes, option_map};
ghost use Rattle.serde_json.specs.Data.{Data, Members, member};
ghost use Rattle.serde_json.specs.View.{view, members_view};
ghost use Rattle.json_genesis.specs.Spelling.{Parts, chaincode_object, module_object, object_of};
ghost use Rattle.json_genesis.specs.Spelling.{shared_object, with_rules};
ghost use Rattle.json_genesis.specs.Fields.{parts_of};

use json_fields::{Fields, fields, is_end, take, take_text};
use serde_json::Value;

/// What the fields of the file hold.
#[derive(Clone, Copy)]
pub(crate) struct GenesisFields<'a> {
    pub absolute: &'a Value,
    pub chaincodes: &'a Value,
    pub count: &'a Value,
    pub modules: &'a Value,
    pub orgs: &'a Value,
    pub peers: &'a Value,
    pub preferred: &'a Value,
    pub queue: &'a Value,
    pub reorder: &'a Value,
    pub rules: Option<&'a Value>,
    pub seats: &'a Value,
    pub upgrade: &'a Value,
}

/// The fields of the file, of which `rules` alone may be left out. None where another is missing,
/// or one is left over.
pub(crate) fn genesis_fields(value: &Value) -> Option<GenesisFields<'_>>
    ensures { MatchOption result ((p : Parts) → view value.now ≢ object_of p)
        (λ f. view value.now ≡ object_of (parts_of f)) }
{
    let mut left = fields(value)?;
    let (absolute, chaincodes, count) = take_three(&mut left, "absolute", "chaincodes", "count")?;
    let (modules, orgs, peers) = take_three(&mut left, "modules", "orgs", "peers")?;
    let (preferred, queue, reorder) = take_three(&mut left, "preferred", "queue", "reorder")?;
    let (rules, seats) = take_rules_and_seats(&mut left)?;
    let upgrade = take(&mut left, "upgrade")?;
    if !is_end(&mut left) {
        return None;
    }
    Some(GenesisFields {
        absolute,
        chaincodes,
        count,
        modules,
        orgs,
        peers,
        preferred,
        queue,
        reorder,
        rules,
        seats,
        upgrade,
    })
}

/// Takes the first three fields that are left, which have these names.
fn take_three<'a>(
    left: &mut Fields<'a>,
    first: &str,
    second: &str,
    third: &str,
) -> Option<(&'a Value, &'a Value, &'a Value)>
    ensures { MatchOption result
        ((a b c : Data) (rest : Members) →
        members_view left.old
        ≢ member first.now a (member second.now b (member third.now c rest)))
        (λ t. members_view left.old
        ≡ member first.now (view t.0.now)
        (member second.now (view t.1.now)
        (member third.now (view t.2.now) (members_view left.new)))) }
{
    let a = take(left, first)?;
    let b = take(left, second)?;
    let c = take(left, third)?;
    Some((a, b, c))
}

/// Takes the field `seats`, and before it `rules` where it is the first that is left.
fn take_rules_and_seats<'a>(left: &mut Fields<'a>) -> Option<(Option<&'a Value>, &'a Value)>
    ensures { MatchOption result
        ((rules : Option Data) (seats : Data) (rest : Members) →
        members_view left.old ≢ with_rules rules (member (codes "seats") seats rest))
        (λ t. members_view left.old
        ≡ with_rules (option_map (λ d. view d.now) t.0)
        (member (codes "seats") (view t.1.now) (members_view left.new))) }
{
    let (name, value) = left.next()?;
    match name.as_str() {
        "rules" => {
            let seats = take(left, "seats")?;
            Some((Some(value), seats))
        }
        "seats" => Some((None, value)),
        _ => None,
    }
}

/// What the fields of an organisation with a shared key hold: the key in hex, and the name.
#[derive(Clone, Copy)]
pub(crate) struct SharedFields<'a> {
    pub key: &'a str,
    pub name: &'a str,
}

/// The fields of an organisation with a shared key. None where one is missing, left over or no
/// text.
pub(crate) fn shared_fields(value: &Value) -> Option<SharedFields<'_>>
    ensures { MatchOption result
        ((key name : List ℕ) → view value.now ≢ shared_object key name)
        (λ f. view value.now ≡ shared_object f.key.now f.name.now) }
{
    let mut left = fields(value)?;
    let key = take_text(&mut left, "key")?;
    let name = take_text(&mut left, "name")?;
    if is_end(&mut left) {
        Some(SharedFields { key, name })
    } else {
        None
    }
}

/// What the fields of a chaincode hold.
#[derive(Clone, Copy)]
pub(crate) struct ChaincodeFields<'a> {
    pub fuel: &'a Value,
    pub hex: &'a str,
    pub name: &'a str,
    pub policy: &'a str,
    pub profile: &'a Value,
}

/// The fields of a chaincode. None where one is missing, left over or, but for the fuel and the
/// profile, no text.
pub(crate) fn chaincode_fields(value: &Value) -> Option<ChaincodeFields<'_>>
    ensures { MatchOption result
        ((fuel : Data) (hex name policy : List ℕ) (profile : Data) →
        view value.now ≢ chaincode_object fuel hex name policy profile)
        (λ f. view value.now
        ≡ chaincode_object (view f.fuel.now) f.hex.now f.name.now f.policy.now
        (view f.profile.now)) }
{
    let mut left = fields(value)?;
    let fuel = take(&mut left, "fuel")?;
    let hex = take_text(&mut left, "module")?;
    let name = take_text(&mut left, "name")?;
    let policy = take_text(&mut left, "policy")?;
    let profile = take(&mut left, "profile")?;
    if is_end(&mut left) {
        Some(ChaincodeFields {
            fuel,
            hex,
            name,
            policy,
            profile,
        })
    } else {
        None
    }
}

/// What the fields of a module hold.
#[derive(Clone, Copy)]
pub(crate) struct ModuleFields<'a> {
    pub hex: &'a str,
    pub profile: &'a Value,
}

/// The fields of a module. None where one is missing or left over, or the hex is no text.
pub(crate) fn module_fields(value: &Value) -> Option<ModuleFields<'_>>
    ensures { MatchOption result
        ((hex : List ℕ) (profile : Data) → view value.now ≢ module_object hex profile)
        (λ f. view value.now ≡ module_object f.hex.now (view f.profile.now)) }
{
    let mut left = fields(value)?;
    let hex = take_text(&mut left, "module")?;
    let profile = take(&mut left, "profile")?;
    if is_end(&mut left) {
        Some(ModuleFields { hex, profile })
    } else {
        None
    }
}
