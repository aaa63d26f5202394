//! A reader of a module's bytes that goes to where something is wrong.

use crate::place::{Name, Place};
use crate::section::{CODE, CUSTOM, FUNCTION, most_items};
use std::mem;
use wasm_bytes::Cursor;
use wasm_decode::limits::MODULE_BYTES;

/// A part of a module: what it has to be, where it begins, and of a number which it is and how
/// large it may be.
#[derive(Clone, Copy)]
pub(crate) struct Part {
    pub(crate) name: &'static str,
    start: usize,
    pub(crate) number: u32,
    pub(crate) most: u32,
}

/// A reader of a module, which knows where it stands. It stops inside a part that cannot be read.
#[derive(Drop)]
pub(crate) struct Reader<'a> {
    pub(crate) cursor: Cursor<'a>,
    /// It stops behind the part that begins at this offset.
    pub(crate) until: usize,
    /// It stops before the first item that begins here or behind; of the code section before the
    /// first such instruction.
    pub(crate) limit: usize,
    /// The part that was begun last.
    pub(crate) part: Part,
    /// The place of the item or instruction that was begun last before the limit.
    pub(crate) place: Place<'a>,
    /// The section: its id, its offset, and that of its first item.
    pub(crate) section: u8,
    pub(crate) start: usize,
    pub(crate) items: usize,
    /// The item of the section: its index and its offset, and of a function that of its locals.
    pub(crate) index: u32,
    pub(crate) item: usize,
    pub(crate) body: usize,
    /// How many functions the module imports, and how many it defines.
    pub(crate) imported: u32,
    pub(crate) functions: u32,
    /// How many instructions of the expression were read.
    pub(crate) instructions: u32,
    /// The blocks that are open: bits below the highest 1, the innermost the lowest, that of an
    /// `if` with no `else` yet 1.
    pub(crate) open: u128,
    /// The function of which an export is looked for, and the name of the first one.
    pub(crate) sought: Option<u32>,
    pub(crate) exported: Name<'a>,
}

impl<'a> Reader<'a> {
    /// A reader of a module that goes on as far as it can.
    pub(crate) fn new(bytes: &'a [u8]) -> Reader<'a> {
        Reader {
            cursor: Cursor::new(bytes),
            until: usize::MAX,
            limit: usize::MAX,
            part: Part {
                name: "",
                start: 0,
                number: 0,
                most: u32::MAX,
            },
            place: Place::NOWHERE,
            section: CUSTOM,
            start: 0,
            items: 0,
            index: 0,
            item: 0,
            body: 0,
            imported: 0,
            functions: 0,
            instructions: 0,
            open: 1,
            sought: None,
            exported: Name::NONE,
        }
    }

    /// Reads the module. None if it stopped.
    pub(crate) fn module(&mut self) -> Option<()> {
        self.bytes(4, "the magic number of a module (00 61 73 6d)")?;
        self.bytes(4, "the version of a module (01 00 00 00)")?;
        for _ in 0..MODULE_BYTES {
            if !self.is_past() {
                self.place = Place::NOWHERE;
            }
            if self.cursor.is_at_end() {
                break;
            }
            self.next_section()?;
        }
        Some(())
    }

    /// Whether it stands at the limit or behind.
    pub(crate) fn is_past(&self) -> bool {
        self.cursor.offset() >= self.limit
    }

    fn next_section(&mut self) -> Option<()> {
        self.start = self.cursor.offset();
        let is_past = self.is_past();
        self.section = self.byte("the id of a later section (at most 0b)")?;
        if !is_past {
            self.place.section = Some(self.section);
        }
        let content = self.sized("its size")?;
        let behind = mem::replace(&mut self.cursor, content);
        self.content()?;
        self.cursor = behind;
        Some(())
    }

    // What the section holds.
    fn content(&mut self) -> Option<()> {
        if self.section == CUSTOM {
            let _ = self.name("its name")?;
            return Some(());
        }
        let count = self.number("the count of its items", most_items(self.section))?;
        if self.section == FUNCTION {
            self.functions = count;
        }
        self.items = self.cursor.offset();
        for index in 0..count {
            self.enter_item(index)?;
            self.read_item()?;
        }
        Some(())
    }

    // Goes to an item of the section.
    fn enter_item(&mut self, index: u32) -> Option<()> {
        self.index = index;
        self.item = self.cursor.offset();
        if !self.is_past() {
            self.place.item = Some(index);
            self.place.name = Name::NONE;
            self.place.instruction = None;
        } else if self.section != CODE {
            return None;
        }
        Some(())
    }

    /// What stands behind its size.
    pub(crate) fn sized(&mut self, size: &'static str) -> Option<Cursor<'a>> {
        let size = self.number(size, u32::MAX)?;
        self.cursor.split(size)
    }

    /// Begins a part.
    pub(crate) fn begin(&mut self, name: &'static str, most: u32) {
        self.part = Part {
            name,
            start: self.cursor.offset(),
            number: 0,
            most,
        };
    }

    /// Goes on behind a part, if that is not the last.
    pub(crate) fn end(&self) -> Option<()> {
        if self.part.start == self.until {
            None
        } else {
            Some(())
        }
    }

    /// The number of 32 bits, which is at most so large.
    pub(crate) fn number(&mut self, name: &'static str, most: u32) -> Option<u32> {
        self.begin(name, most);
        let number = self.cursor.u32_leb().ok()?;
        self.part.number = number;
        self.end()?;
        Some(number)
    }

    /// So many numbers.
    pub(crate) fn numbers(&mut self, count: u32, name: &'static str) -> Option<()> {
        for _ in 0..count {
            let _ = self.number(name, u32::MAX)?;
        }
        Some(())
    }

    /// The next byte.
    pub(crate) fn byte(&mut self, name: &'static str) -> Option<u8> {
        self.begin(name, u32::MAX);
        let byte = self.cursor.byte().ok()?;
        self.end()?;
        Some(byte)
    }

    /// So many bytes.
    pub(crate) fn bytes(&mut self, count: u32, name: &'static str) -> Option<()> {
        for _ in 0..count {
            let _ = self.byte(name)?;
        }
        Some(())
    }

    /// A signed number.
    pub(crate) fn constant(&mut self) -> Option<()> {
        self.begin("its constant", u32::MAX);
        let _ = self.cursor.i64_leb().ok()?;
        self.end()
    }

    /// The name.
    pub(crate) fn name(&mut self, name: &'static str) -> Option<&'a str> {
        self.begin(name, u32::MAX);
        let text = self.cursor.name().ok()?;
        self.end()?;
        Some(text)
    }
}
