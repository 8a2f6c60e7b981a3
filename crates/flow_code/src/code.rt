use crate::act::Instr;
use crate::region::{Bound, Region};
use rr_base::{Bytes, CellKind, List, Site};

/// A program as flow code. Function 0 is its first; site 1 is the first of `sites`.
#[derive(Debug, Drop)]
pub struct Code {
    pub functions: List<Function>,
    pub sites: List<Site>,
    /// The start words of the global cells; the base of an address counts from the first of them.
    pub globals: List<u64>,
    /// The kind of each global cell.
    pub global_kinds: List<CellKind>,
    /// The first global cell of each site's object, in the order of the sites; none of a site that is no global.
    pub global_bases: List<Option<u32>>,
    /// The weak locks.
    pub locks: List<LockInfo>,
}

/// A function. Arguments arrive in the registers from 0 on.
#[derive(Debug, Drop)]
pub struct Function {
    pub name: Bytes,
    /// The line of the name in the definition.
    pub line: u32,
    pub formals: u32,
    pub registers: u32,
    /// Whether each register is a pointer.
    pub pointers: List<bool>,
    pub gives_pointer: bool,
    pub instrs: List<Instr>,
    pub loops: List<LoopInfo>,
    pub regions: List<Region>,
}

/// A weak lock: the place that it guards, and its number of stripes.
#[derive(Clone, Copy, Debug, PartialEq, Eq)]
pub struct LockInfo {
    pub site: u16,
    pub class: u8,
    pub stripes: u8,
}

/// A counted loop: its Mark, the instructions of its body and last part, its counter, bound and step.
#[derive(Clone, Copy, Debug, PartialEq, Eq)]
pub struct LoopInfo {
    pub at: u32,
    pub first: u32,
    pub last: u32,
    pub counter: u32,
    pub bound: Bound,
    pub step: i64,
}
