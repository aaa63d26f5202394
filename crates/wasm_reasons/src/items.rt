//! What sections hold: items (Core 1.0, sections 5.5.4 to 5.5.14), and expressions in them
//! (section 5.4).

use crate::place::Name;
use crate::reader::Reader;
use crate::section::{CODE, DATA, ELEMENT, EXPORT, FUNCTION, GLOBAL, IMPORT, MEMORY, TABLE, TYPE};
use std::mem;
use wasm_decode::limits::{
    MODULE_BYTES, MOST_ENTRIES, MOST_LABELS, MOST_LOCALS, MOST_PAGES, MOST_PARAMETERS,
};

const IF: u8 = 0x04;

const ELSE: u8 = 0x05;

const END: u8 = 0x0b;

const VALUE_TYPE: &str = "a value type (i32 is 7f, i64 is 7e)";

const KIND: &str = "a kind (function is 00, table is 01, memory is 02, global is 03)";

const TYPE_INDEX: &str = "the index of its type";

impl Reader<'_> {
    /// The item of the section at which it stands.
    pub(crate) fn read_item(&mut self) -> Option<()> {
        match self.section {
            TYPE => self.function_type(),
            IMPORT => self.import(),
            FUNCTION => self.numbers(1, TYPE_INDEX),
            TABLE => self.table_type(),
            MEMORY => self.limits(MOST_PAGES),
            GLOBAL => {
                self.global_type()?;
                self.constant_expression()
            }
            EXPORT => self.export(),
            ELEMENT => self.element(),
            CODE => self.code(),
            DATA => self.data(),
            _ => Some(()),
        }
    }

    fn function_type(&mut self) -> Option<()> {
        let _ = self.byte("the form of a function type (60)")?;
        let count = self.number("the count of its parameters", MOST_PARAMETERS)?;
        self.bytes(count, VALUE_TYPE)?;
        let count = self.number("the count of its results", 1)?;
        self.bytes(count, VALUE_TYPE)
    }

    // Limits of which the least is at most so large.
    fn limits(&mut self, most: u32) -> Option<()> {
        let has_greatest = self.byte("the flag of limits (00, or 01 with a greatest size)")?;
        let _ = self.number("its least size", most)?;
        self.numbers(has_greatest as u32, "its greatest size")
    }

    fn table_type(&mut self) -> Option<()> {
        let _ = self.byte("the type of a table's elements (70)")?;
        self.limits(MOST_ENTRIES)
    }

    fn global_type(&mut self) -> Option<()> {
        let _ = self.byte(VALUE_TYPE)?;
        let _ = self.byte("the mutability (constant is 00, variable is 01)")?;
        Some(())
    }

    fn import(&mut self) -> Option<()> {
        let module = self.name("the name of its module")?;
        let name = self.name("its name")?;
        self.place.name = Name { module, name };
        match self.byte(KIND)? {
            0 => {
                self.imported = self.imported.saturating_add(1);
                self.numbers(1, TYPE_INDEX)
            }
            1 => self.table_type(),
            2 => self.limits(MOST_PAGES),
            _ => self.global_type(),
        }
    }

    fn export(&mut self) -> Option<()> {
        let name = Name {
            module: "",
            name: self.name("its name")?,
        };
        self.place.name = name;
        let kind = self.byte(KIND)?;
        let index = self.number("its index", u32::MAX)?;
        if kind == 0 && self.sought == Some(index) {
            self.exported = name;
            self.sought = None;
        }
        Some(())
    }

    fn element(&mut self) -> Option<()> {
        let _ = self.number("the index of its table", u32::MAX)?;
        self.constant_expression()?;
        let count = self.number("the count of its functions", MOST_ENTRIES)?;
        self.numbers(count, "the index of one of its functions")
    }

    fn data(&mut self) -> Option<()> {
        let _ = self.number("the index of its memory", u32::MAX)?;
        self.constant_expression()?;
        let count = self.number("the count of its bytes", u32::MAX)?;
        self.bytes(count, "the bytes of the segment")
    }

    fn code(&mut self) -> Option<()> {
        let code = self.sized("the size of its code")?;
        let behind = mem::replace(&mut self.cursor, code);
        self.body = self.cursor.offset();
        self.locals()?;
        self.expression()?;
        self.cursor = behind;
        Some(())
    }

    // The declared locals of a function.
    fn locals(&mut self) -> Option<()> {
        let groups = self.number("the count of its groups of locals", u32::MAX)?;
        let mut room = MOST_LOCALS;
        for _ in 0..groups {
            let count = self.number("the count of locals of a group", room)?;
            room = room.saturating_sub(count);
            let _ = self.byte(VALUE_TYPE)?;
        }
        Some(())
    }

    // An expression of an item that goes on behind it or has no other part.
    fn constant_expression(&mut self) -> Option<()> {
        self.expression()?;
        self.place.instruction = None;
        Some(())
    }

    fn expression(&mut self) -> Option<()> {
        self.instructions = 0;
        self.open = 1;
        for _ in 0..MODULE_BYTES {
            if self.section == CODE && self.is_past() {
                return None;
            }
            let opcode = self.opcode()?;
            self.immediate(opcode)?;
            self.nest(opcode);
            if self.open == 0 {
                break;
            }
        }
        Some(())
    }

    // The opcode of an instruction, or of an `else` or an `end`.
    fn opcode(&mut self) -> Option<u8> {
        self.place.instruction = None;
        self.begin("the expression", u32::MAX);
        let opcode = self.cursor.byte().ok()?;
        self.place.instruction = Some((self.instructions, opcode));
        self.end()?;
        Some(opcode)
    }

    // Counts an instruction, and goes into a block or out of one.
    fn nest(&mut self, opcode: u8) {
        match opcode {
            0x02 | 0x03 => self.open <<= 1,
            IF => self.open = (self.open << 1) | 1,
            ELSE => self.open = (self.open >> 1) << 1,
            END => self.open >>= 1,
            _ => {}
        }
        if opcode != ELSE && opcode != END {
            self.instructions = self.instructions.saturating_add(1);
        }
    }

    // What stands behind an opcode.
    fn immediate(&mut self, opcode: u8) -> Option<()> {
        match opcode {
            0x02..=IF => self.bytes(1, "a block type (none is 40, i32 is 7f, i64 is 7e)"),
            0x0c | 0x0d | 0x10 | 0x20..=0x24 => self.numbers(1, "its index"),
            0x0e => self.labels(),
            0x11 => {
                self.numbers(1, TYPE_INDEX)?;
                self.bytes(1, "00")
            }
            0x28..=0x3e => self.numbers(2, "its alignment or its offset"),
            0x3f | 0x40 => self.bytes(1, "00"),
            0x41 | 0x42 => self.constant(),
            _ => Some(()),
        }
    }

    // The labels of a `br_table`.
    fn labels(&mut self) -> Option<()> {
        let count = self.number("the count of its labels", MOST_LABELS)?;
        self.numbers(count, "one of its labels")?;
        self.numbers(1, "its default label")
    }
}
