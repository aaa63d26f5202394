//! Ed25519 signatures (RFC 8032): pure, deterministic, and verified with no cofactor. No memory is
//! taken.
#![tactic(auto)]

ghost use Rattle.std.specs.Prelude.{◌≡◌, ◌↔◌, ◌++◌, ◌+◌, true, take, drop};
ghost use Rattle.ed25519.specs.Signing.{pruned, public_key, secret, prefix, nonce, challenge};
ghost use Rattle.ed25519.specs.Signing.{signature, verifies, IsOfSmallOrder, IsPublicKey};

use edwards25519::Point;
use field25519::Number;
use scalar::Scalar;
use sha2::{Digest, Sha512};
use std::marker::Model;

mod scalar;

/// A secret key, with what is computed from it once.
#[derive(Drop)]
pub struct SigningKey {
    seed: [u8; 32],
    secret: Number,
    prefix: [u8; 32],
    public: [u8; 32],
}

impl Model for SigningKey {
    ghost use Rattle.std.specs.Prelude.{◌≡◌, ℕ, List};
    ghost use Rattle.ed25519.specs.Signing.{secret as secret_of, prefix as prefix_of};
    ghost use Rattle.ed25519.specs.Signing.{public_key as public_of};

    ghost Value = { List ℕ };

    ghost view = { λ k. k.seed };

    ghost invariant = { λ k. (k.secret ≡ secret_of k.seed)
        × (k.prefix ≡ prefix_of k.seed)
        × (k.public ≡ public_of k.seed) };
}

impl SigningKey {
    /// The key of 32 secret bytes.
    #[tactic(auto, unfolding(crate::specs::Signing::prefix))]
    pub fn new(seed: &[u8; 32]) -> SigningKey
        ensures { result ≡ seed.now }
    {
        SigningKey {
            secret: secret(seed),
            prefix: second_half(&Sha512::digest(seed)),
            public: public_key(seed),
            seed: *seed,
        }
    }

    /// The public key (RFC 8032, section 5.1.5).
    pub fn public_key(&self) -> [u8; 32]
        ensures { result ≡ public_key self.now }
    {
        self.public
    }

    /// The signature of a message (RFC 8032, section 5.1.6).
    pub fn sign(&self, message: &[u8]) -> [u8; 64]
        ensures { result ≡ signature self.now message.now }
    {
        self.sign_behind(&[], message)
    }

    /// The signature of a message in two pieces, which are not copied: the front, and what follows.
    #[tactic(auto, unfolding(crate::specs::Signing::signature))]
    pub fn sign_behind(&self, front: &[u8], message: &[u8]) -> [u8; 64]
        ensures { result ≡ signature self.now (front.now ++ message.now) }
    {
        let nonce = nonce(&self.prefix, front, message);
        let commitment = Point::times_base(nonce.number()).encoded();
        let challenge = challenge(&commitment, &self.public, front, message);
        let response = nonce.plus(&challenge.times(&self.secret));
        joined(&commitment, &response.number().copy().to_bytes())
    }
}

/// The public key of a secret one (RFC 8032, section 5.1.5).
#[tactic(auto, unfolding(crate::specs::Signing::public_key))]
pub fn public_key(seed: &[u8; 32]) -> [u8; 32]
    ensures { result ≡ public_key seed.now }
{
    Point::times_base(&secret(seed)).encoded()
}

/// The signature of a message (RFC 8032, section 5.1.6).
pub fn sign(seed: &[u8; 32], message: &[u8]) -> [u8; 64]
    ensures { result ≡ signature seed.now message.now }
{
    SigningKey::new(seed).sign(message)
}

/// Whether this is a signature of the message under the public key (RFC 8032, section 5.1.7). Under
/// a key of small order it tells nothing: see `is_of_small_order`.
pub fn verify(public: &[u8; 32], message: &[u8], signature: &[u8; 64]) -> bool
    ensures { result ≡ verifies public.now message.now signature.now }
{
    verify_behind(public, &[], message, signature)
}

/// The same of a message in two pieces, which are not copied: the front, and what follows.
#[tactic(auto, unfolding(crate::specs::Signing::verifies))]
pub fn verify_behind(public: &[u8; 32], front: &[u8], message: &[u8], signature: &[u8; 64]) -> bool
    ensures { result ≡ verifies public.now (front.now ++ message.now) signature.now }
{
    let commitment = first_half(signature);
    let response = Number::from_bytes(&second_half(signature));
    let Some(key) = Point::decoded(public) else {
        return false;
    };
    let Some(r) = Point::decoded(&commitment) else {
        return false;
    };
    if !scalar::is_below_order(&response) {
        return false;
    }
    let challenge = challenge(&commitment, public, front, message);
    Point::times_base(&response).is(&r.plus(&key.times(challenge.number())))
}

/// Whether a public key is one of the eight under which anybody signs: points that 8 times are
/// neutral. Bytes of no point are none of them, and no signature verifies under those.
pub fn is_of_small_order(public: &[u8; 32]) -> bool
    ensures { result ≡ true ↔ IsOfSmallOrder public.now }
{
    match Point::decoded(public) {
        None => false,
        Some(key) => key.has_small_order(),
    }
}

/// Whether 32 bytes are a public key to take in: the encoding of a point that is not of small
/// order. Under each other one nobody signs, or everybody.
pub fn is_public_key(bytes: &[u8; 32]) -> bool
    ensures { result ≡ true ↔ IsPublicKey bytes.now }
{
    match Point::decoded(bytes) {
        None => false,
        Some(key) => !key.has_small_order(),
    }
}

fn first_half(bytes: &[u8; 64]) -> [u8; 32]
    ensures { result ≡ take 32 bytes.now }
{
    let mut half = [0; 32];
    half.copy_from_slice(&bytes[..32]);
    half
}

fn second_half(bytes: &[u8; 64]) -> [u8; 32]
    ensures { result ≡ drop 32 bytes.now }
{
    let mut half = [0; 32];
    half.copy_from_slice(&bytes[32..64]);
    half
}

fn joined(first: &[u8; 32], second: &[u8; 32]) -> [u8; 64]
    ensures { result ≡ first.now ++ second.now }
{
    let mut all = [0; 64];
    all[..32].copy_from_slice(first);
    all[32..64].copy_from_slice(second);
    all
}

#[tactic(auto, unfolding(crate::specs::Signing::secret))]
fn secret(seed: &[u8; 32]) -> Number
    ensures { result ≡ secret seed.now }
{
    pruned(&Number::from_bytes(&first_half(&Sha512::digest(seed))))
}

fn pruned(number: &Number) -> Number
    ensures { result ≡ pruned number.now }
{
    Number::new(
        number.word0() / 8 * 8,
        number.word1(),
        number.word2(),
        number.word3() % (1 << 62) + (1 << 62),
    )
}

#[tactic(auto, unfolding(crate::specs::Signing::nonce))]
fn nonce(prefix: &[u8; 32], front: &[u8], message: &[u8]) -> Scalar
    ensures { result ≡ nonce prefix.now (front.now ++ message.now) }
{
    let mut hasher = Sha512::new();
    hasher.update(prefix);
    hasher.update(front);
    hasher.update(message);
    Scalar::from_bytes(&hasher.finalize())
}

#[tactic(auto, unfolding(crate::specs::Signing::challenge))]
fn challenge(commitment: &[u8; 32], public: &[u8; 32], front: &[u8], message: &[u8]) -> Scalar
    ensures { result ≡ challenge commitment.now public.now (front.now ++ message.now) }
{
    let mut hasher = Sha512::new();
    hasher.update(commitment);
    hasher.update(public);
    hasher.update(front);
    hasher.update(message);
    Scalar::from_bytes(&hasher.finalize())
}
