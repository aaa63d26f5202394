//! What is written as bytes: each value in one spelling, and lists behind their count.
//!
//! Numbers are unsigned, the greatest byte first. A list or a string of bytes has its length in
//! front. Each byte is copied once.

ghost use Rattle.std.specs.Prelude.{◌≡◌, ◌^◌, ◌<◌, ◌++◌, ℕ, List, OnOk, IfSome, length};
ghost use Rattle.std.specs.List.{AllByRecursion, flat_map};
ghost use Rattle.fab_types.specs.Spelling.{few_bytes, many_bytes, optional_bytes};

use std::alloc::AllocError;

/// A value of the ledger that is written as bytes.
pub trait Spelled {
    /// Its bytes.
    ghost spelling: { Self → List ℕ };

    /// Holds of the values within the ledger's limits, which are all that there are.
    ghost within: { Self → Type 0 };

    /// Appends the bytes of the value. The error is of memory.
    fn write(&self, out: &mut Vec<u8>) -> Result<(), AllocError>
        ensures spelled { OnOk result (out.new.items ≡ out.old.items ++ spelling self.now) }
        ensures within { OnOk result (within self.now) };
}

fn write_each<T: Spelled>(items: &[T], out: &mut Vec<u8>) -> Result<(), AllocError>
    ensures spelled { OnOk result (out.new.items ≡ out.old.items ++ flat_map T.spelling items.now) }
    ensures within { OnOk result (AllByRecursion T.within items.now) }
{
    for item in items {
        item.write(out)?;
    }
    Ok(())
}

/// Appends the number of items in one byte, and each. The error is of memory.
pub fn write_few<T: Spelled>(items: &[T], out: &mut Vec<u8>) -> Result<(), AllocError>
    requires { length items.now < 2 ^ 8 }
    ensures spelled { OnOk result
        (out.new.items ≡ out.old.items ++ few_bytes T.spelling items.now) }
    ensures within { OnOk result (AllByRecursion T.within items.now) }
{
    out.push(items.len() as u8)?;
    write_each(items, out)
}

/// Appends the number of items in two bytes, and each.
pub(crate) fn write_many<T: Spelled>(items: &[T], out: &mut Vec<u8>) -> Result<(), AllocError>
    requires { length items.now < 2 ^ 16 }
    ensures spelled { OnOk result
        (out.new.items ≡ out.old.items ++ many_bytes T.spelling items.now) }
    ensures within { OnOk result (AllByRecursion T.within items.now) }
{
    let count = items.len() as u16;
    out.extend_from_slice(&count.to_be_bytes())?;
    write_each(items, out)
}

impl<T: Spelled> Spelled for Option<T> {
    ghost spelling = { optional_bytes T.spelling };

    ghost within = { λ o. IfSome o T.within };

    fn write(&self, out: &mut Vec<u8>) -> Result<(), AllocError> {
        match self {
            None => Ok(out.push(0)?),
            Some(value) => {
                out.push(1)?;
                value.write(out)
            }
        }
    }
}
