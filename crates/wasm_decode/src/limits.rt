//! The limits of both profiles.

/// Bytes of a module.
pub const MODULE_BYTES: usize = 262_144;

/// Types of a module.
pub const MOST_TYPES: u32 = 1024;

/// Functions that a module defines.
pub const MOST_FUNCTIONS: u32 = 1024;

/// Imports, tables, memories, globals, exports, element and data segments of a module, each.
pub const MOST_PARTS: u32 = 64;

/// Parameters of a type.
pub const MOST_PARAMETERS: u32 = 64;

/// Declared locals of a function.
pub const MOST_LOCALS: u32 = 192;

/// Instructions of an expression, those in blocks included, without `end` and `else`.
pub const MOST_INSTRUCTIONS: u32 = 8192;

/// Blocks in one another.
pub const MOST_NESTING: u32 = 64;

/// Labels of a `br_table` before its default.
pub const MOST_LABELS: u32 = 1024;

/// Pages of a memory at its start.
pub const MOST_PAGES: u32 = 16;

/// Entries of a table at its start, and functions of an element segment.
pub const MOST_ENTRIES: u32 = 1024;
