//! Instructions and locks written by hand.
use facts::{Held, LockPath};
use flow_code::{Act, Instr};
use rr_base::{List, Position};
use std::alloc::{AllocError, Global};
use sync_objects::Mode;
use word_semantics::LibraryCall;

/// Where each instruction and site stands.
pub const START: Position = Position { line: 1, column: 1 };

/// The first global cell's lock, held for reading.
pub const READS_FIRST_CELL: Held = Held {
    path: LockPath::Cell(0),
    mode: Mode::Read,
};

/// The same, held for writing.
pub const WRITES_FIRST_CELL: Held = Held {
    path: LockPath::Cell(0),
    mode: Mode::Write,
};

/// The lock to which the first formal points, held for reading.
pub const READS_FORMAL: Held = Held {
    path: LockPath::Formal {
        index: 0,
        offset: 0,
    },
    mode: Mode::Read,
};

/// The same, held for writing.
pub const WRITES_FORMAL: Held = Held {
    path: LockPath::Formal {
        index: 0,
        offset: 0,
    },
    mode: Mode::Write,
};

/// A call of the library whose result goes nowhere.
pub fn library(alloc: Global, call: LibraryCall, arguments: &[u32]) -> Result<Act, AllocError> {
    let arguments = List::from_slice(alloc, arguments)?;
    Ok(Act::Library {
        call,
        arguments,
        into: None,
    })
}

/// One more instruction, at the same place of the source.
pub fn add(instrs: &mut List<Instr>, act: Act) -> Result<(), AllocError> {
    instrs.push(Instr { at: START, act })
}

/// The instructions that do this, all at one place of the source.
pub fn instrs(alloc: Global, acts: Vec<Act>) -> Result<List<Instr>, AllocError> {
    let mut instrs = List::new(alloc);
    for act in acts {
        add(&mut instrs, act)?;
    }
    Ok(instrs)
}
