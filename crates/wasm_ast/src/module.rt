//! Modules and their parts (Core 1.0, section 2.5).

use crate::body::Body;
use crate::functions::Functions;
use crate::name::Name;
use crate::types::{FuncType, GlobalType, Limits, ValueType};
use seq::Seq;

/// What an import is.
#[derive(Clone, Copy, Debug, PartialEq, Eq)]
pub enum ImportKind {
    /// A function of the type at this index.
    Function(u32),
    /// A table of functions.
    Table(Limits),
    Memory(Limits),
    Global(GlobalType),
}

/// An import, by the name of a module and a name in it.
#[derive(Debug, Drop)]
pub struct Import {
    pub module: Name,
    pub name: Name,
    pub kind: ImportKind,
}

/// A defined function.
#[derive(Debug, Drop)]
pub struct Func {
    /// The index of its type.
    pub type_index: u32,
    /// The types of its locals beyond the parameters, in order.
    pub locals: Seq<ValueType>,
    pub body: Body,
}

/// A global, with the expression of the value that it starts with.
#[derive(Debug, Drop)]
pub struct Global {
    pub global_type: GlobalType,
    pub initializer: Body,
}

/// What an export names.
#[derive(Clone, Copy, Debug, PartialEq, Eq)]
pub enum ExternalKind {
    Function,
    Table,
    Memory,
    Global,
}

/// An export: a name for the function, table, memory or global at an index.
#[derive(Debug, Drop)]
pub struct Export {
    pub name: Name,
    pub kind: ExternalKind,
    pub index: u32,
}

/// Functions that a table starts with.
#[derive(Debug, Drop)]
pub struct ElementSegment {
    pub table: u32,
    /// The expression of the place where they begin.
    pub offset: Body,
    /// The indices of the functions.
    pub functions: Seq<u32>,
}

/// Bytes that a memory starts with.
#[derive(Debug, Drop)]
pub struct DataSegment {
    pub memory: u32,
    /// The expression of the place where they begin.
    pub offset: Body,
    pub bytes: Seq<u8>,
}

/// A module. Function indices count the imported functions first.
#[derive(Debug, Drop)]
pub struct Module {
    pub types: Seq<FuncType>,
    pub imports: Seq<Import>,
    pub functions: Functions,
    pub tables: Seq<Limits>,
    pub memories: Seq<Limits>,
    pub globals: Seq<Global>,
    pub exports: Seq<Export>,
    pub elements: Seq<ElementSegment>,
    pub data: Seq<DataSegment>,
}
