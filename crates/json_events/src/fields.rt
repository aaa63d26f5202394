//! The fields of each form of a line, which are taken in the order of their names.

ghost use Rattle.std.specs.Prelude.{◌≡◌, ◌≢◌, ℕ, List, MatchOption, MatchBool};
ghost use Rattle.serde_json.specs.Data.{Data, Items, Members, member, number, object, string, unsigned};
ghost use Rattle.serde_json.specs.View.{view, items_view, members_view};
ghost use Rattle.json_events.specs.Spelling.{amend_members, argument_name, begin_object, call_members, commit_object, finish_object, hex_object, seat_members, upgrade_members, use_object, word_object};
ghost use Rattle.json_events.specs.Spelling.{kept_object};

use json_fields::{Fields, fields, is_end, items, take_list, take_number, take_text, take_word};
use serde_json::Value;

/// A peer and one of its seats.
#[derive(Clone, Copy)]
pub(crate) struct Place {
    pub peer: u64,
    pub seat: u64,
}

/// The peer and the seat, which are all that is left.
fn last_place(left: &mut Fields<'_>) -> Option<Place>
    ensures { MatchOption result ((peer seat : ℕ) → members_view left.old ≢ seat_members peer seat)
        (λ p. members_view left.old ≡ seat_members p.peer p.seat) }
{
    let peer = take_number(left, "peer")?;
    let seat = take_number(left, "seat")?;
    if is_end(left) {
        Some(Place { peer, seat })
    } else {
        None
    }
}

/// The name that an argument has.
fn argument_name(value: &Value) -> &'static str
    ensures { result.now ≡ argument_name (view value.now) }
{
    match items(value) {
        Some(_) => "args",
        None => "arg",
    }
}

/// Takes the first field that is left, which is `args` and holds a list, or `arg` and holds
/// something else. None in every other case; what is left after that is not said.
pub fn take_argument<'a>(fields: &mut Fields<'a>) -> Option<&'a Value>
    ensures { MatchOption result
        ((d : Data) (rest : Members) → members_view fields.old ≢ member (argument_name d) d rest)
        (λ v. members_view fields.old
        ≡ member (argument_name (view v.now)) (view v.now) (members_view fields.new)) }
{
    let (key, value) = fields.next()?;
    if key.as_str() == argument_name(value) {
        Some(value)
    } else {
        None
    }
}

/// What the fields of a call hold.
#[derive(Clone, Copy)]
pub(crate) struct CallFields<'a> {
    pub arg: &'a Value,
    pub chaincode: &'a str,
    pub nonce: &'a str,
}

/// The fields of a call. None where the line is of another form.
pub(crate) fn call_fields(value: &Value) -> Option<CallFields<'_>>
    ensures { MatchOption result
        ((arg : Data) (chaincode nonce : List ℕ) →
        view value.now ≢ object (call_members arg chaincode nonce))
        (λ f. view value.now
        ≡ object (call_members (view f.arg.now) f.chaincode.now f.nonce.now)) }
{
    let mut left = fields(value)?;
    let arg = take_argument(&mut left)?;
    let chaincode = take_text(&mut left, "chaincode")?;
    let nonce = take_text(&mut left, "nonce")?;
    if !is_end(&mut left) {
        return None;
    }
    Some(CallFields {
        arg,
        chaincode,
        nonce,
    })
}

/// The fields of a begin of a call. None where the line is of another form.
pub(crate) fn begun_call_fields(value: &Value) -> Option<(Place, CallFields<'_>)>
    ensures { MatchOption result
        ((arg : Data) (chaincode nonce : List ℕ) (peer seat : ℕ) →
        view value.now ≢ begin_object peer seat (call_members arg chaincode nonce))
        (λ b. view value.now
        ≡ begin_object b.0.peer b.0.seat
        (call_members (view b.1.arg.now) b.1.chaincode.now b.1.nonce.now)) }
{
    let mut left = fields(value)?;
    let arg = take_argument(&mut left)?;
    let chaincode = take_text(&mut left, "chaincode")?;
    if !take_word(&mut left, "do", "begin") {
        return None;
    }
    let nonce = take_text(&mut left, "nonce")?;
    let place = last_place(&mut left)?;
    let fields = CallFields {
        arg,
        chaincode,
        nonce,
    };
    Some((place, fields))
}

/// Takes the first two fields that are left, which have these names and hold a number and a text.
fn take_pair<'a>(left: &mut Fields<'a>, first: &str, second: &str) -> Option<(u64, &'a str)>
    ensures { MatchOption result
        ((n : ℕ) (s : List ℕ) (rest : Members) →
        members_view left.old
        ≢ member first.now (number (unsigned n)) (member second.now (string s) rest))
        (λ p. members_view left.old
        ≡ member first.now (number (unsigned p.0))
        (member second.now (string p.1.now) (members_view left.new))) }
{
    let number = take_number(left, first)?;
    let text = take_text(left, second)?;
    Some((number, text))
}

/// What the fields of an upgrade hold.
#[derive(Clone, Copy)]
pub(crate) struct UpgradeFields<'a> {
    pub fuel: u64,
    pub digest: &'a str,
    pub nonce: &'a str,
    pub policy: &'a str,
    pub profile: u64,
    pub chaincode: &'a str,
}

/// The fields of an upgrade. None where the line is of another form.
pub(crate) fn upgrade_fields(value: &Value) -> Option<UpgradeFields<'_>>
    ensures { MatchOption result
        ((fuel : ℕ) (digest nonce policy : List ℕ) (profile : ℕ) (chaincode : List ℕ) →
        view value.now
        ≢ object (upgrade_members fuel digest nonce policy profile chaincode))
        (λ f. view value.now
        ≡ object (upgrade_members f.fuel f.digest.now f.nonce.now f.policy.now f.profile
        f.chaincode.now)) }
{
    let mut left = fields(value)?;
    let (fuel, digest) = take_pair(&mut left, "fuel", "module")?;
    let nonce = take_text(&mut left, "nonce")?;
    let policy = take_text(&mut left, "policy")?;
    let (profile, chaincode) = take_pair(&mut left, "profile", "upgrade")?;
    if !is_end(&mut left) {
        return None;
    }
    Some(UpgradeFields {
        fuel,
        digest,
        nonce,
        policy,
        profile,
        chaincode,
    })
}

/// The fields of a begin of an upgrade. None where the line is of another form.
pub(crate) fn begun_upgrade_fields(value: &Value) -> Option<(Place, UpgradeFields<'_>)>
    ensures { MatchOption result
        ((fuel : ℕ) (digest nonce policy : List ℕ) (profile : ℕ) (chaincode : List ℕ)
        (peer seat : ℕ) →
        view value.now
        ≢ begin_object peer seat (upgrade_members fuel digest nonce policy profile chaincode))
        (λ b. view value.now
        ≡ begin_object b.0.peer b.0.seat
        (upgrade_members b.1.fuel b.1.digest.now b.1.nonce.now b.1.policy.now b.1.profile
        b.1.chaincode.now)) }
{
    let mut left = fields(value)?;
    if !take_word(&mut left, "do", "begin") {
        return None;
    }
    let (fuel, digest) = take_pair(&mut left, "fuel", "module")?;
    let nonce = take_text(&mut left, "nonce")?;
    let (peer, policy) = take_pair(&mut left, "peer", "policy")?;
    let profile = take_number(&mut left, "profile")?;
    let (seat, chaincode) = take_pair(&mut left, "seat", "upgrade")?;
    if !is_end(&mut left) {
        return None;
    }
    let fields = UpgradeFields {
        fuel,
        digest,
        nonce,
        policy,
        profile,
        chaincode,
    };
    Some((Place { peer, seat }, fields))
}

/// What the fields of an amendment hold.
#[derive(Clone, Copy)]
pub(crate) struct AmendFields<'a> {
    pub members: &'a [Value],
    pub nonce: &'a str,
    pub policy: &'a str,
    pub serial: u64,
}

/// The fields of an amendment. None where the line is of another form.
pub(crate) fn amend_fields(value: &Value) -> Option<AmendFields<'_>>
    ensures { MatchOption result
        ((members : Items) (nonce policy : List ℕ) (serial : ℕ) →
        view value.now ≢ object (amend_members members nonce policy serial))
        (λ f. view value.now
        ≡ object (amend_members (items_view f.members.now) f.nonce.now f.policy.now f.serial)) }
{
    let mut left = fields(value)?;
    let members = take_list(&mut left, "members")?;
    let nonce = take_text(&mut left, "nonce")?;
    let policy = take_text(&mut left, "policy")?;
    let serial = take_number(&mut left, "serial")?;
    if !is_end(&mut left) {
        return None;
    }
    Some(AmendFields {
        members,
        nonce,
        policy,
        serial,
    })
}

/// The fields of a begin of an amendment. None where the line is of another form.
pub(crate) fn begun_amend_fields(value: &Value) -> Option<(Place, AmendFields<'_>)>
    ensures { MatchOption result
        ((members : Items) (nonce policy : List ℕ) (serial peer seat : ℕ) →
        view value.now
        ≢ begin_object peer seat (amend_members members nonce policy serial))
        (λ b. view value.now
        ≡ begin_object b.0.peer b.0.seat
        (amend_members (items_view b.1.members.now) b.1.nonce.now b.1.policy.now b.1.serial)) }
{
    let mut left = fields(value)?;
    if !take_word(&mut left, "do", "begin") {
        return None;
    }
    let members = take_list(&mut left, "members")?;
    let nonce = take_text(&mut left, "nonce")?;
    let (peer, policy) = take_pair(&mut left, "peer", "policy")?;
    let seat = take_number(&mut left, "seat")?;
    let serial = take_number(&mut left, "serial")?;
    if !is_end(&mut left) {
        return None;
    }
    let fields = AmendFields {
        members,
        nonce,
        policy,
        serial,
    };
    Some((Place { peer, seat }, fields))
}

/// The name of a member that keeps its key. None where the object is of another form.
pub(crate) fn kept_name(value: &Value) -> Option<&str>
    ensures { MatchOption result ((name : List ℕ) → view value.now ≢ kept_object name)
        (λ name. view value.now ≡ kept_object name.now) }
{
    let mut left = fields(value)?;
    let name = take_text(&mut left, "name")?;
    if is_end(&mut left) { Some(name) } else { None }
}

/// What the fields of a finish hold.
#[derive(Clone, Copy)]
pub(crate) struct FinishFields<'a> {
    pub name: &'a str,
    pub place: Place,
}

/// The fields of a finish. None where the line is of another form.
pub(crate) fn finish_fields(value: &Value) -> Option<FinishFields<'_>>
    ensures { MatchOption result
        ((name : List ℕ) (peer seat : ℕ) → view value.now ≢ finish_object name peer seat)
        (λ f. view value.now ≡ finish_object f.name.now f.place.peer f.place.seat) }
{
    let mut left = fields(value)?;
    let name = take_text(&mut left, "as")?;
    if !take_word(&mut left, "do", "finish") {
        return None;
    }
    let place = last_place(&mut left)?;
    Some(FinishFields { name, place })
}

/// The names that a submit uses. None where the line is of another form.
pub(crate) fn used_names(value: &Value) -> Option<&[Value]>
    ensures { MatchOption result ((ds : Items) → view value.now ≢ use_object ds)
        (λ vs. view value.now ≡ use_object (items_view vs.now)) }
{
    let mut left = fields(value)?;
    if !take_word(&mut left, "do", "submit") {
        return None;
    }
    let names = take_list(&mut left, "use")?;
    if is_end(&mut left) { Some(names) } else { None }
}

/// The hex of a submit. None where the line is of another form.
pub(crate) fn submitted_hex(value: &Value) -> Option<&str>
    ensures { MatchOption result ((hex : List ℕ) → view value.now ≢ hex_object hex)
        (λ hex. view value.now ≡ hex_object hex.now) }
{
    let mut left = fields(value)?;
    if !take_word(&mut left, "do", "submit") {
        return None;
    }
    let hex = take_text(&mut left, "hex")?;
    if is_end(&mut left) { Some(hex) } else { None }
}

/// Whether the line has this word alone.
pub(crate) fn is_word(value: &Value, word: &str) -> bool
    ensures { MatchBool result (view value.now ≡ word_object word.now)
        (view value.now ≢ word_object word.now) }
{
    let Some(mut left) = fields(value) else {
        return false;
    };
    take_word(&mut left, "do", word) && is_end(&mut left)
}

/// The peer of a commit. None where the line is of another form.
pub(crate) fn committing_peer(value: &Value) -> Option<u64>
    ensures { MatchOption result ((peer : ℕ) → view value.now ≢ commit_object peer)
        (λ peer. view value.now ≡ commit_object peer) }
{
    let mut left = fields(value)?;
    if !take_word(&mut left, "do", "commit") {
        return None;
    }
    let peer = take_number(&mut left, "peer")?;
    if is_end(&mut left) { Some(peer) } else { None }
}
