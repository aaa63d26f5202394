//! Numbers below 2^256, in four words of 64 bits, low word first.

ghost use Rattle.std.specs.Prelude.{◌≡◌, ℕ, ◌+◌, ◌*◌, ◌/◌, ◌%◌, ◌^◌, ◌<◌, ◌≤◌, nat_eq, if◌then◌else◌};
ghost use Rattle.field25519.specs.Bytes.{number, bytes_of, is_odd};

use crate::choice::{mask_of, under};
use std::marker::Model;

/// A number below 2^256.
#[derive(Drop)]
pub struct Number {
    w0: u64,
    w1: u64,
    w2: u64,
    w3: u64,
}

impl Model for Number {
    ghost Value = { ℕ };

    ghost view = { λ n. n.w0 + 2 ^ 64 * n.w1 + 2 ^ 128 * n.w2 + 2 ^ 192 * n.w3 };

    ghost invariant = { λ n.
        (n.w0 < 2 ^ 64) × (n.w1 < 2 ^ 64) × (n.w2 < 2 ^ 64) × (n.w3 < 2 ^ 64) };
}

/// A sum of two numbers, with what is carried out of 256 bits.
#[derive(Drop)]
pub struct Sum {
    pub low: Number,
    pub carry: u64,
}

impl Number {
    /// The number in four words, low word first.
    pub fn new(w0: u64, w1: u64, w2: u64, w3: u64) -> Number
        ensures { result ≡ w0 + 2 ^ 64 * w1 + 2 ^ 128 * w2 + 2 ^ 192 * w3 }
    {
        Number { w0, w1, w2, w3 }
    }

    /// The low word.
    pub fn word0(&self) -> u64
        ensures { result ≡ self.now % 2 ^ 64 }
    {
        self.w0
    }

    /// The second word.
    pub fn word1(&self) -> u64
        ensures { result ≡ self.now / 2 ^ 64 % 2 ^ 64 }
    {
        self.w1
    }

    /// The third word.
    pub fn word2(&self) -> u64
        ensures { result ≡ self.now / 2 ^ 128 % 2 ^ 64 }
    {
        self.w2
    }

    /// The high word.
    pub fn word3(&self) -> u64
        ensures word { result ≡ self.now / 2 ^ 192 }
        ensures below { self.now < 2 ^ 256 }
    {
        self.w3
    }

    /// The number with a byte put below it.
    #[inline(always)]
    pub fn followed_by(&self, byte: u8) -> Number
        requires { self.now < 2 ^ 248 }
        ensures { result ≡ byte + 256 * self.now }
    {
        Number {
            w0: self.w0 % (1 << 56) * 256 + u64::from(byte),
            w1: self.w1 % (1 << 56) * 256 + (self.w0 >> 56),
            w2: self.w2 % (1 << 56) * 256 + (self.w1 >> 56),
            w3: self.w3 % (1 << 56) * 256 + (self.w2 >> 56),
        }
    }

    /// The low byte.
    #[inline(always)]
    pub fn low_byte(&self) -> u8
        ensures { result ≡ self.now % 256 }
    {
        (self.w0 % 256) as u8
    }

    /// The number without its low byte: the quotient by 256.
    #[inline(always)]
    pub fn without_low_byte(&self) -> Number
        ensures { result ≡ self.now / 256 }
    {
        Number {
            w0: (self.w0 >> 8) + self.w1 % 256 * (1 << 56),
            w1: (self.w1 >> 8) + self.w2 % 256 * (1 << 56),
            w2: (self.w2 >> 8) + self.w3 % 256 * (1 << 56),
            w3: self.w3 >> 8,
        }
    }

    /// Whether the low bit is 1.
    #[inline(always)]
    pub fn is_odd(&self) -> bool
        ensures { result ≡ is_odd self.now }
    {
        self.w0 % 2 == 1
    }

    /// The quotient by 2.
    #[inline(always)]
    pub fn halved(&self) -> Number
        ensures { result ≡ self.now / 2 }
    {
        Number {
            w0: (self.w0 >> 1) + self.w1 % 2 * (1 << 63),
            w1: (self.w1 >> 1) + self.w2 % 2 * (1 << 63),
            w2: (self.w2 >> 1) + self.w3 % 2 * (1 << 63),
            w3: self.w3 >> 1,
        }
    }

    /// The sum, in 256 bits and a carry of 0 or 1.
    #[inline(always)]
    pub fn plus(&self, other: &Number) -> Sum
        ensures sum { result.low + 2 ^ 256 * result.carry ≡ self.now + other.now }
        ensures carry { result.carry ≤ 1 }
        ensures low { result.low < 2 ^ 256 }
    {
        let s0 = u128::from(self.w0) + u128::from(other.w0);
        let s1 = u128::from(self.w1) + u128::from(other.w1) + (s0 >> 64);
        let s2 = u128::from(self.w2) + u128::from(other.w2) + (s1 >> 64);
        let s3 = u128::from(self.w3) + u128::from(other.w3) + (s2 >> 64);
        Sum {
            low: Number {
                w0: (s0 % (1 << 64)) as u64,
                w1: (s1 % (1 << 64)) as u64,
                w2: (s2 % (1 << 64)) as u64,
                w3: (s3 % (1 << 64)) as u64,
            },
            carry: (s3 >> 64) as u64,
        }
    }

    /// The number of 32 bytes, low byte first.
    pub fn from_bytes(bytes: &[u8; 32]) -> Number
        ensures { result ≡ number bytes.now }
    {
        let mut all = Number::new(0, 0, 0, 0);
        for place in 0..32 {
            all = all.followed_by(bytes[31 - place]);
        }
        all
    }

    /// The 32 bytes of the number, low byte first.
    pub fn to_bytes(self) -> [u8; 32]
        ensures { result ≡ bytes_of 32 self }
    {
        let mut rest = self;
        let mut bytes = [0; 32];
        for place in 0..32 {
            bytes[place] = rest.low_byte();
            rest = rest.without_low_byte();
        }
        bytes
    }

    /// Whether two numbers are the same.
    pub fn is(&self, other: &Number) -> bool
        ensures { result ≡ nat_eq self.now other.now }
    {
        self.w0 == other.w0 && self.w1 == other.w1 && self.w2 == other.w2 && self.w3 == other.w3
    }

    /// The first where the flag is 1, the second where it is 0, with no branch on the flag.
    #[inline(always)]
    pub fn chosen(flag: u64, first: &Number, second: &Number) -> Number
        requires { flag ≤ 1 }
        ensures same { result ≡ (if nat_eq flag 0 then second.now else first.now) }
        ensures below { result < 2 ^ 256 }
    {
        let mask = mask_of(flag);
        Number {
            w0: under(mask, first.w0, second.w0),
            w1: under(mask, first.w1, second.w1),
            w2: under(mask, first.w2, second.w2),
            w3: under(mask, first.w3, second.w3),
        }
    }

    /// The same number.
    #[inline(always)]
    pub fn copy(&self) -> Number
        ensures same { result ≡ self.now }
        ensures below { result < 2 ^ 256 }
    {
        Number {
            w0: self.w0,
            w1: self.w1,
            w2: self.w2,
            w3: self.w3,
        }
    }
}
