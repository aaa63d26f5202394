//! Laws of Ed25519 keys and signatures, which take no time to run.
#![tactic(auto)]

ghost use Rattle.ed25519_laws.specs.Laws.{EncodingIsUnique, SeedsHavePublicKeys};
ghost use Rattle.ed25519_laws.specs.Laws.{SignedIsVerified, SignatureIsUnique, SmallOrdersAreEight};
ghost use Rattle.ed25519_laws.specs.Laws.{SmallOrdersSign};

/// 32 bytes that are decoded to a point are its encoding, so it has no other one.
pub fn encoding_is_unique()
    ensures { EncodingIsUnique }
{}

/// The public key of a seed is that of a point, and not of small order.
pub fn seeds_have_public_keys()
    ensures { SeedsHavePublicKeys }
{}

/// What is signed is verified.
pub fn signed_is_verified()
    ensures { SignedIsVerified }
{}

/// Two signatures of one message under one key that begin with the same 32 bytes have the same
/// number after them.
pub fn signature_is_unique()
    ensures { SignatureIsUnique }
{}

/// Under a key of small order one signature verifies for other messages too, and anybody makes one,
/// so such a key is to be refused where keys are registered (`ed25519::is_of_small_order`).
pub fn small_orders_sign()
    ensures { SmallOrdersSign }
{}

/// Exactly eight encodings are of small order.
pub fn small_orders_are_eight()
    ensures { SmallOrdersAreEight }
{}
