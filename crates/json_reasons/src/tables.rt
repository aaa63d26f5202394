//! What each object of an input may have.

/// What a value has to be.
#[derive(Clone, Copy)]
pub(crate) enum Form {
    /// `true` or `false`.
    Flag,
    /// A whole number from the least to the greatest, in digits alone.
    Number(u64, u64),
    /// The first byte of a definition: 1 or 2, or 17 or 18 where it is open.
    FirstByte,
    /// Any text.
    Text,
    /// A name of an organisation, of a chaincode, or the text of a policy.
    OrgName,
    ChaincodeName,
    Policy,
    /// Hex of the least count of bytes to the greatest.
    Hex(u64, u64),
    /// The same of an argument's bytes, or `-` for none.
    Argument,
    /// Hex of a public key of Ed25519.
    PublicKey,
    /// A list of the least count of items to the greatest.
    List(u64, u64, Items),
}

/// What the items of a list are: texts, names of organisations, or objects.
#[derive(Clone, Copy)]
pub(crate) enum Items {
    Texts,
    Names,
    Objects(Object),
}

/// An object that an input is or has.
#[derive(Clone, Copy, PartialEq, Eq)]
pub(crate) enum Object {
    Genesis,
    Organisation,
    Chaincode,
    Module,
    Member,
    Proposal,
    Event,
    Question,
}

/// A field by its name, and what it holds.
pub(crate) type Field = (&'static str, Form);

/// A form of an object: whose it is, the word by which the object asks, the field by which the form
/// is known, and its fields, all of which have to be there. The word and the field are empty where
/// there is none, and the form of no field is the one that is left.
pub(crate) type Row = (Object, &'static str, &'static str, &'static [Field]);

/// All forms. What names the table has all of it in its proof, so this alone does.
pub(crate) fn rows() -> &'static [Row] {
    &ROWS
}

pub(crate) const MODULES_FILE: Form = Form::List(0, 64, Items::Objects(Object::Module));

/// How many bytes an argument has at most.
pub(crate) const MOST_ARGUMENT_BYTES: u64 = 4_096;

/// A field of the table. Of two of one name the one of the genesis file has its object in front.
macro_rules! field {
    (seats) => { ("seats", Form::Number(1, 64)) };
    (queue) => { ("queue", Form::Number(1, 4_096)) };
    (count) => { ("count", Form::Number(1, 512)) };
    (preferred) => { ("preferred", Form::Number(1, 524_288)) };
    (absolute) => { ("absolute", Form::Number(1, 524_288)) };
    (reorder) => { ("reorder", Form::Flag) };
    (rules) => { ("rules", Form::Number(1, 2)) };
    (genesis_orgs) => { ("orgs", Form::List(1, 16, Items::Objects(Object::Organisation))) };
    (peers) => { ("peers", Form::List(1, 8, Items::Names)) };
    (genesis_upgrade) => { ("upgrade", Form::Text) };
    (chaincodes) => { ("chaincodes", Form::List(1, 16, Items::Objects(Object::Chaincode))) };
    (modules) => { ("modules", Form::List(0, 16, Items::Objects(Object::Module))) };
    (name) => { ("name", Form::OrgName) };
    (org_public) => { ("public", Form::PublicKey) };
    (org_key) => { ("key", Form::Hex(1, 128)) };
    (chaincode_name) => { ("name", Form::ChaincodeName) };
    (code) => { ("module", Form::Hex(0, u64::MAX)) };
    (code_profile) => { ("profile", Form::Number(1, 2)) };
    (chaincode_policy) => { ("policy", Form::Text) };
    (fuel) => { ("fuel", Form::Number(1, 10_000_000)) };
    (do) => { ("do", Form::Text) };
    (peer) => { ("peer", Form::Number(0, u64::MAX)) };
    (seat) => { ("seat", Form::Number(0, u64::MAX)) };
    (chaincode) => { ("chaincode", Form::ChaincodeName) };
    (arg) => { ("arg", Form::Argument) };
    (args) => { ("args", Form::List(0, u64::MAX, Items::Texts)) };
    (nonce) => { ("nonce", Form::Hex(16, 16)) };
    (upgrade) => { ("upgrade", Form::ChaincodeName) };
    (module) => { ("module", Form::Hex(32, 32)) };
    (profile) => { ("profile", Form::FirstByte) };
    (policy) => { ("policy", Form::Policy) };
    (serial) => { ("serial", Form::Number(0, 4_294_967_295)) };
    (members) => { ("members", Form::List(1, 16, Items::Objects(Object::Member))) };
    (public) => { ("public", Form::Hex(32, 32)) };
    (envelope) => { ("as", Form::Text) };
    (hex) => { ("hex", Form::Hex(0, u64::MAX)) };
    (names) => { ("use", Form::List(1, 32, Items::Texts)) };
    (ask) => { ("ask", Form::Text) };
    (number) => { ("number", Form::Number(1, 4_000_000_000)) };
    (key) => { ("key", Form::Hex(1, 64)) };
    (start) => { ("start", Form::Hex(0, 64)) };
    (end) => { ("end", Form::Hex(0, 64)) };
    (limit) => { ("limit", Form::Number(1, 1_000)) };
    (from) => { ("from", Form::Number(1, 4_000_000_000)) };
    (blocks) => { ("blocks", Form::Number(1, 1_000)) };
    (id) => { ("id", Form::Hex(32, 32)) };
    (orgs) => { ("orgs", Form::List(0, 32, Items::Names)) };
    (asked_arg) => { ("arg", Form::Hex(0, MOST_ARGUMENT_BYTES)) };
}

macro_rules! rows {
    ($($object:ident $word:literal $by:literal: $($field:ident)*;)*) => {
        [$((Object::$object, $word, $by, &[$(field!($field)),*])),*]
    };
}

static ROWS: [Row; 34] = rows! {
    Genesis "" "rules": seats queue count preferred absolute reorder rules genesis_orgs peers
        genesis_upgrade chaincodes modules;
    Genesis "" "": seats queue count preferred absolute reorder genesis_orgs peers
        genesis_upgrade chaincodes modules;
    Organisation "" "public": name org_public;
    Organisation "" "": name org_key;
    Chaincode "" "": chaincode_name code code_profile chaincode_policy fuel;
    Module "" "": code code_profile;
    Member "" "public": name public;
    Member "" "": name;
    Proposal "" "upgrade": upgrade module profile fuel policy nonce;
    Proposal "" "members": members policy serial nonce;
    Proposal "" "args": chaincode args nonce;
    Proposal "" "": chaincode arg nonce;
    Event "begin" "upgrade": do peer seat upgrade module profile fuel policy nonce;
    Event "begin" "members": do peer seat members policy serial nonce;
    Event "begin" "args": do peer seat chaincode args nonce;
    Event "begin" "": do peer seat chaincode arg nonce;
    Event "finish" "": do peer seat envelope;
    Event "submit" "hex": do hex;
    Event "submit" "": do names;
    Event "take" "": do;
    Event "tick" "": do;
    Event "commit" "": do peer;
    Question "setting" "": ask;
    Question "members" "": ask;
    Question "block" "": ask number;
    Question "get" "": ask key;
    Question "range" "": ask start end limit;
    Question "history" "from": ask key from blocks;
    Question "history" "blocks": ask key from blocks;
    Question "history" "": ask key;
    Question "transaction" "": ask id;
    Question "satisfied" "": ask chaincode orgs;
    Question "call" "args": ask chaincode args;
    Question "call" "": ask chaincode asked_arg;
};
