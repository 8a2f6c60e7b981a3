// Instructions, functions and regions of which the tests' codes are made.
use flow_code::{Act, Base, Function, Instr, Region, Work};
use rr_base::{CellKind, Layout, List, Position, PtrWord, Site};
use std::alloc::{AllocError, Global};
use word_semantics::{BinaryOp, LibraryCall};

pub fn lone<T: Drop>(alloc: Global, item: T) -> Result<List<T>, AllocError> {
    let mut list = List::new(alloc);
    list.push(item)?;
    Ok(list)
}

fn registers(alloc: Global, numbers: &[u32]) -> Result<List<u32>, AllocError> {
    List::from_slice(alloc, numbers)
}

pub fn site(alloc: Global, kind: CellKind, size: u32) -> Result<Site, AllocError> {
    let mut kinds = List::new(alloc);
    for _k in 0..size {
        kinds.push(kind)?;
    }
    Ok(Site {
        name: List::new(alloc),
        layout: Layout {
            size,
            element: 1,
            kinds,
        },
        at: Position { line: 1, column: 1 },
    })
}

pub fn compute(into: u32, work: Work) -> Act {
    Act::Compute { into, work }
}

pub fn constant(into: u32, value: i64) -> Act {
    compute(into, Work::Constant(value))
}

pub fn binary(into: u32, op: BinaryOp, left: u32, right: u32) -> Act {
    compute(into, Work::Binary { op, left, right })
}

// The address of the first global.
pub fn address(into: u32, length: u16) -> Act {
    compute(into, Work::Address(PtrWord::pack(1, 0, length, 0)))
}

pub fn load(into: u32, through: u32) -> Act {
    Act::LoadCell { into, through }
}

pub fn store(through: u32, from: u32) -> Act {
    Act::StoreCell { through, from }
}

pub fn call(alloc: Global, call: LibraryCall, arguments: &[u32]) -> Result<Act, AllocError> {
    Ok(Act::Library {
        call,
        arguments: registers(alloc, arguments)?,
        into: None,
    })
}

// A list of instructions from the acts in turn.
pub fn add(instrs: &mut List<Instr>, act: Act) -> Result<(), AllocError> {
    instrs.push(Instr {
        at: Position { line: 1, column: 1 },
        act,
    })
}

pub fn function(
    alloc: Global,
    name: &[u8],
    formals: u32,
    pointers: &[bool],
    instrs: List<Instr>,
    regions: List<Region>,
) -> Result<Function, AllocError> {
    Ok(Function {
        name: List::from_slice(alloc, name)?,
        line: 1,
        formals,
        registers: pointers.len().min(64) as u32,
        pointers: List::from_slice(alloc, pointers)?,
        gives_pointer: formals == 1,
        instrs,
        loops: List::new(alloc),
        regions,
    })
}

pub fn cell(alloc: Global, register: u32) -> Result<Region, AllocError> {
    Ok(Region::Cell {
        base: Base::Register(register),
        locks: List::from_slice(alloc, &[0])?,
    })
}

pub fn whole(alloc: Global) -> Result<Region, AllocError> {
    Ok(Region::Whole {
        locks: List::from_slice(alloc, &[0])?,
    })
}
