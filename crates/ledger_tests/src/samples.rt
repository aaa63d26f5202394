//! Transactions, a genesis and chains that several tests look at or are made of.

use fab_types::Envelope;
use hmac_tag::tag;
use json_genesis::read_genesis;
use ledger_setting::Genesis;
use orderer::Orderer;
use std::alloc::Global;
use std::test::Fail;
use wire::decode_envelope;

/// One peer and organisation A, which has to endorse the transactions of `kv`. That reads `a`, and
/// then puts the value `1` there: the module of examples/get_put_a.wat.
pub const GET_PUT_A: &str =
    "{\"orgs\":[{\"name\":\"A\",\"key\":\"4a656665\"}],\"peers\":[\"A\"],\"seats\":4,\"queue\":4,\"count\":1,\"preferred\":1000,\"absolute\":1000,\"reorder\":false,\"chaincodes\":[{\"name\":\"kv\",\"module\":\"0061736d01000000010d0260047f7f7f7f017f6000017f02270206666162726963096765745f7374617465000006666162726963097075745f73746174650000030201010503010001070a0106696e766f6b6500020a1c011a00410041014102410010001a410041014101410110011a41000b0b08010041000b026131\",\"policy\":\"'A'\",\"fuel\":141,\"profile\":1}],\"modules\":[],\"upgrade\":\"'A'\"}";

/// The same, where `kv` is `(loop (result i32) br 0)`: it goes round until it has spent 10,000,000.
pub const LOOP: &str =
    "{\"orgs\":[{\"name\":\"A\",\"key\":\"4a656665\"}],\"peers\":[\"A\"],\"seats\":4,\"queue\":4,\"count\":1,\"preferred\":1000,\"absolute\":1000,\"reorder\":false,\"chaincodes\":[{\"name\":\"kv\",\"module\":\"0061736d010000000105016000017f03020100070a0106696e766f6b6500000a09010700037f0c000b0b\",\"policy\":\"'A'\",\"fuel\":10000000,\"profile\":1}],\"modules\":[],\"upgrade\":\"'A'\"}";

/// The same of organisations A, B and C, of which two have to endorse. C's key is the public one of
/// `SEED`, the others' are shared: each has its letter, a zero and the letter.
pub const TWO_OF_THREE: &str =
    "{\"orgs\":[{\"name\":\"A\",\"key\":\"410041\"},{\"name\":\"B\",\"key\":\"420042\"},{\"name\":\"C\",\"public\":\"d75a980182b10ab7d54bfed3c964073a0ee172f3daa62325af021a68f707511a\"}],\"peers\":[\"A\"],\"seats\":4,\"queue\":4,\"count\":1,\"preferred\":1000,\"absolute\":1000,\"reorder\":false,\"chaincodes\":[{\"name\":\"kv\",\"module\":\"0061736d010000000105016000017f03020100070a0106696e766f6b6500000a09010700037f0c000b0b\",\"policy\":\"OutOf(2, 'A', 'B', 'C')\",\"fuel\":10000000,\"profile\":1}],\"modules\":[],\"upgrade\":\"OutOf(2, 'A', 'B', 'C')\"}";

/// The bytes of a call of `kv` that read its definition as absent and nothing else, and puts `1` at
/// `a`, with a tag of A of zeros.
const PUT: [u8; 75] =
    *b"\x02kv\x00\x00\x00\x00\x00\x00\x00\x00\x00\x00\x00\x00\x00\x00\x00\x00\x00\x00\x00\x00\x00\x01\x03\x00kv\x00\x00\x00\x00\x01\x01a\x01\x00\x011\x01\x01A\x00\x00\x00\x00\x00\x00\x00\x00\x00\x00\x00\x00\x00\x00\x00\x00\x00\x00\x00\x00\x00\x00\x00\x00\x00\x00\x00\x00\x00\x00\x00\x00";

/// The same of a call that deletes `a`.
const DELETION: [u8; 72] =
    *b"\x02kv\x00\x00\x00\x00\x00\x00\x00\x00\x00\x00\x00\x00\x00\x00\x00\x00\x00\x00\x00\x00\x00\x01\x03\x00kv\x00\x00\x00\x00\x01\x01a\x00\x01\x01A\x00\x00\x00\x00\x00\x00\x00\x00\x00\x00\x00\x00\x00\x00\x00\x00\x00\x00\x00\x00\x00\x00\x00\x00\x00\x00\x00\x00\x00\x00\x00\x00";

/// Where the nonce, the key and the tag begin, and the payload ends.
const NONCE: usize = 5;

const KEY: usize = 35;

const TAG: usize = 43;

const PAYLOAD: usize = 40;

/// The seed and the public key of TEST 1 of RFC 8032, section 7.1.
pub const SEED: [u8; 32] =
    *b"\x9d\x61\xb1\x9d\xef\xfd\x5a\x60\xba\x84\x4a\xf4\x92\xec\x2c\xc4\x44\x49\xc5\x69\x7b\x32\x69\x19\x70\x3b\xac\x03\x1c\xae\x7f\x60";

pub const PUBLIC: [u8; 32] =
    *b"\xd7\x5a\x98\x01\x82\xb1\x0a\xb7\xd5\x4b\xfe\xd3\xc9\x64\x07\x3a\x0e\xe1\x72\xf3\xda\xa6\x23\x25\xaf\x02\x1a\x68\xf7\x07\x51\x1a";

/// What a text spells.
pub fn genesis(alloc: Global, text: &str) -> Result<Genesis, Fail> {
    match read_genesis(alloc, text) {
        Ok(genesis) => Ok(genesis),
        Err(_) => Err("a genesis".into()),
    }
}

/// A transaction of `kv` that reads its definition alone and puts `1` at a key, with A's tag. The
/// nonce tells it from others. None for want of memory.
pub fn transaction(alloc: Global, nonce: u8, key: u8) -> Option<Envelope> {
    let mut bytes = PUT;
    bytes[NONCE] = nonce;
    bytes[KEY] = key;
    let tag = tag(b"Jefe", &bytes[..PAYLOAD]);
    bytes[TAG..].copy_from_slice(&tag);
    decode_envelope(alloc, &bytes).ok()
}

/// A transaction of `kv` that reads its definition alone and deletes a key, with a tag that is not
/// A's. None for want of memory.
pub fn deletion(alloc: Global, nonce: u8, key: u8) -> Option<Envelope> {
    let mut bytes = DELETION;
    bytes[NONCE] = nonce;
    bytes[KEY] = key;
    decode_envelope(alloc, &bytes).ok()
}

/// What tests of peers begin with.
#[derive(Drop)]
pub struct Setup {
    pub genesis: Genesis,
    pub chain: Orderer,
    /// Puts `1` at `k`, and is of no block.
    pub call: Envelope,
}

/// A setup with what a text spells and a chain of so many blocks: block 4 puts `a`, those of other
/// even numbers `b`, and the rest `k`.
pub fn opening(alloc: Global, text: &str, count: u8) -> Result<Setup, Fail> {
    let Some(call) = transaction(alloc, 50, b'k') else {
        return Err("a transaction".into());
    };
    let genesis = genesis(alloc, text)?;
    let mut chain = Orderer::new(alloc, 1, 1000, 1000, false);
    let is_ordered = is_ordered(alloc, &mut chain, count);
    let setup = Setup {
        genesis,
        chain,
        call,
    };
    if is_ordered {
        Ok(setup)
    } else {
        Err("a chain".into())
    }
}

/// Orders the transactions of such a chain. Whether all were taken.
fn is_ordered(alloc: Global, orderer: &mut Orderer, count: u8) -> bool {
    let mut is_ordered = true;
    for step in 0..count {
        let key = match step {
            3 => b'a',
            _ if step % 2 == 1 => b'b',
            _ => b'k',
        };
        is_ordered &= is_taken(orderer, transaction(alloc, step, key));
    }
    is_ordered
}

/// Whether there is a transaction, and an orderer takes it.
pub fn is_taken(orderer: &mut Orderer, transaction: Option<Envelope>) -> bool {
    match transaction {
        Some(envelope) => refusal_of(orderer, envelope) == 0,
        None => false,
    }
}

/// The number of the refusal of a transaction that an orderer is given, or 0.
pub fn refusal_of(orderer: &mut Orderer, envelope: Envelope) -> u16 {
    match orderer.accept(envelope) {
        Ok(_) => 0,
        Err(refusal) => refusal.cause.number(),
    }
}
