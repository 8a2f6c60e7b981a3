use crate::statement::Statement;
use rr_base::{Bytes, CellKind, List, Position, Site};

/// A formal that is kept in cells: the register in which its argument arrives, its object, and the place of its name in
/// the definition.
#[derive(Clone, Copy, Debug, PartialEq, Eq)]
pub struct Arrival {
    pub register: u32,
    pub object: u32,
    pub at: Position,
}

/// A function that the source defines. Its registers are its formals, from 0 on, and after them its other locals that
/// aren't kept in cells.
#[derive(Drop)]
pub struct CoreFunction {
    pub name: Bytes,
    /// The place of the name in the definition.
    pub at: Position,
    pub formals: u32,
    /// Whether each register is a pointer.
    pub pointers: List<bool>,
    /// The site of each formal and local that is kept in cells, in the order of the text.
    pub objects: List<u16>,
    pub arrivals: List<Arrival>,
    pub gives_pointer: bool,
    pub body: Statement,
}

/// A type of pointers to functions. A pointer to function number n is the whole number n + 1.
#[derive(Drop)]
pub struct PointerType {
    /// Whether each formal is a pointer.
    pub formals: List<bool>,
    pub gives_pointer: bool,
    /// The place of the name in the first declaration of such a pointer.
    pub at: Position,
    /// The functions of this type whose names stand as values somewhere.
    pub targets: List<u32>,
}

/// A source with names and types settled. Function 0 is the first that it defines; site 1 is the first of `sites`.
#[derive(Drop)]
pub struct Core {
    pub functions: List<CoreFunction>,
    /// A call through a pointer has the number of the pointer's type, counted on from the functions, and takes the pointer
    /// as its first argument.
    pub pointers: List<PointerType>,
    pub sites: List<Site>,
    /// The start words of the global cells; the base of an address counts from the first of them.
    pub globals: List<u64>,
    /// The kind of each global cell.
    pub global_kinds: List<CellKind>,
    /// The first global cell of each site's object, in the order of the sites; none of a site that is no global.
    pub global_bases: List<Option<u32>>,
}
