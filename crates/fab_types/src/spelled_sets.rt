//! The bytes of what a transaction read and wrote.

ghost use Rattle.std.specs.Prelude.{◌≤◌, length};
ghost use Rattle.std.specs.List.{AllByRecursion};
ghost use Rattle.fab_types.specs.Sets.{IsReadSet, IsWriteSet};
ghost use Rattle.fab_types.specs.Spelling.{entry_bytes, many_bytes, range_bytes, read_bytes, version_bytes, write_bytes};
ghost use Rattle.fab_types.specs.Within.{IsEntry, IsRangeItem, IsReadItem, IsVersion, IsWriteItem};

use crate::items::{RangeEntry, ReadItem, WriteItem};
use crate::range_item::RangeItem;
use crate::ranges::Ranges;
use crate::read_set::ReadSet;
use crate::spelled::{Spelled, write_few, write_many};
use crate::version::Version;
use crate::write_set::WriteSet;
use std::alloc::AllocError;

impl Spelled for Version {
    ghost spelling = { version_bytes };

    ghost within = { IsVersion };

    fn write(&self, out: &mut Vec<u8>) -> Result<(), AllocError> {
        out.extend_from_slice(&self.block().to_be_bytes())?;
        out.extend_from_slice(&self.place().to_be_bytes())
    }
}

impl Spelled for ReadItem {
    ghost spelling = { read_bytes };

    ghost within = { IsReadItem };

    fn write(&self, out: &mut Vec<u8>) -> Result<(), AllocError> {
        self.key.write(out)?;
        self.version.write(out)
    }
}

impl Spelled for RangeEntry {
    ghost spelling = { entry_bytes };

    ghost within = { IsEntry };

    fn write(&self, out: &mut Vec<u8>) -> Result<(), AllocError> {
        self.key.write(out)?;
        self.version.write(out)
    }
}

impl Spelled for WriteItem {
    ghost spelling = { write_bytes };

    ghost within = { IsWriteItem };

    fn write(&self, out: &mut Vec<u8>) -> Result<(), AllocError> {
        self.key.write(out)?;
        self.value.write(out)
    }
}

impl Spelled for RangeItem {
    ghost spelling = { range_bytes };

    ghost within = { IsRangeItem };

    fn write(&self, out: &mut Vec<u8>) -> Result<(), AllocError> {
        self.start().write(out)?;
        self.end().write(out)?;
        out.push(self.limit())?;
        write_few(self.entries(), out)
    }
}

impl Spelled for ReadSet {
    ghost spelling = { many_bytes read_bytes };

    ghost within = { λ items. IsReadSet items × AllByRecursion IsReadItem items };

    fn write(&self, out: &mut Vec<u8>) -> Result<(), AllocError> {
        write_many(self.as_slice(), out)
    }
}

impl Spelled for Ranges {
    ghost spelling = { many_bytes range_bytes };

    ghost within = { λ rs. (length rs ≤ 16) × AllByRecursion IsRangeItem rs };

    fn write(&self, out: &mut Vec<u8>) -> Result<(), AllocError> {
        write_many(self.as_slice(), out)
    }
}

impl Spelled for WriteSet {
    ghost spelling = { many_bytes write_bytes };

    ghost within = { λ items. IsWriteSet items × AllByRecursion IsWriteItem items };

    fn write(&self, out: &mut Vec<u8>) -> Result<(), AllocError> {
        write_many(self.as_slice(), out)
    }
}
