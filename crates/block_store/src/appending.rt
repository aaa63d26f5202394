//! Appending a record.

ghost use Rattle.std.specs.Prelude.{◌≡◌, ◌++◌, OnOk, IfOk, length, map};
ghost use Rattle.fab_types.specs.FlagNumber.{flag_number};
ghost use Rattle.fab_types.specs.BlockWithin.{IsBlock};
ghost use Rattle.block_store.specs.Record.{record_bytes};
ghost use Rattle.block_store.specs.Appending.{Appended, AppendedTo, fault_number};
ghost use Rattle.block_store.specs.declared.appending.AppendFault.TheVariants.{Memory};

use crate::device::CountedWrite;
use fab_types::{Block, Flag};
use sha2::{Digest, Sha256};
use std::alloc::{AllocError, Global};
use std::error::Error;
use std::fmt::{self, Display, Formatter, Write};
use wire::write_block;

/// Why a record is not there, or not all of it.
#[derive(Clone, Copy, Debug, Drop, PartialEq, Eq)]
pub enum AppendFault {
    /// A growth of memory was refused. Nothing was written.
    Memory,
    /// A call of the device failed. So many bytes of the record were written.
    Device(usize),
}

impl AppendFault {
    /// The number of the fault: 9 for want of memory, 703 where the device failed.
    pub fn number(self) -> u16
        ensures { result ≡ fault_number self }
    {
        match self {
            AppendFault::Memory => 9,
            AppendFault::Device(_) => 703,
        }
    }
}

impl Display for AppendFault {
    ghost use Rattle.std.specs.Prelude.{Some};
    ghost use Rattle.std.specs.Fmt.{decimal};

    ghost output = { λ e. Some (decimal (fault_number e)) };

    fn fmt<W: Write>(&self, f: &mut Formatter<W>) -> fmt::Result {
        write!(f, "{}", self.number())
    }
}

impl Error for AppendFault {}

impl From<AllocError> for AppendFault {
    ghost from_gives = { λ _ e. e ≡ Memory };

    fn from(_error: AllocError) -> AppendFault {
        AppendFault::Memory
    }
}

fn push_flags(flags: &[Flag], out: &mut Vec<u8>) -> Result<(), AllocError>
    ensures { OnOk result (out.new.items ≡ out.old.items ++ map flag_number flags.now) }
{
    for flag in flags {
        out.push(flag.number())?;
    }
    Ok(())
}

/// The bytes of the record of a block and its flags, one for each transaction. The only error is
/// want of memory.
pub fn encode_record(alloc: Global, block: &Block, flags: &[Flag]) -> Result<Vec<u8>, AllocError>
    ensures spelled { IfOk result
        (λ v. v.items ≡ record_bytes (record { block = block.now; flags = flags.now })) }
    ensures within { OnOk result (IsBlock block.now) }
{
    let size = block.size();
    let mut out = Vec::with_capacity(alloc, (4 + size + 32).saturating_add(flags.len()))?;
    let len = size as u32;
    out.extend_from_slice(&len.to_be_bytes())?;
    write_block(block, &mut out)?;
    push_flags(flags, &mut out)?;
    let digest = Sha256::digest(out.as_slice());
    out.extend_from_slice(&digest)?;
    Ok(out)
}

fn write_whole<W: CountedWrite>(writer: &mut W, bytes: &[u8]) -> Result<(), AppendFault>
    ensures written { Appended result bytes.now (W.written writer.old) (W.written writer.new)
        (W.failures writer.old) (W.failures writer.new) }
    ensures known { AppendedTo result bytes.now (W.contents writer.old) (W.contents writer.new) }
{
    let mut at = 0;
    while at < bytes.len() {
        match writer.write(&bytes[at..]) {
            Ok(count) => at += count,
            Err(_) => return Err(AppendFault::Device(at)),
        }
    }
    Ok(())
}

/// Appends the record of a block and its flags, one for each transaction. After
/// [`AppendFault::Device`] a beginning of the record stands there, and the store loads as torn, or
/// clean where not one byte was taken.
pub fn append<W: CountedWrite>(
    alloc: Global,
    writer: &mut W,
    block: &Block,
    flags: &[Flag],
) -> Result<(), AppendFault>
    requires { length flags.now ≡ length block.now.envelopes }
    ensures written { Appended result
        (record_bytes (record { block = block.now; flags = flags.now })) (W.written writer.old)
        (W.written writer.new) (W.failures writer.old) (W.failures writer.new) }
    ensures known { AppendedTo result
        (record_bytes (record { block = block.now; flags = flags.now })) (W.contents writer.old)
        (W.contents writer.new) }
    // Each block is within its limits, so the record is loaded again.
    ensures within { OnOk result (IsBlock block.now) }
{
    let bytes = encode_record(alloc, block, flags)?;
    write_whole(writer, &bytes)
}
