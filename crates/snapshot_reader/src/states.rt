// The numbers of the states of objects.
ghost use Rattle.std.specs.Prelude.{◌≡◌};
ghost use Rattle.snapshots.specs.Conditions as conditions;
ghost use Rattle.sync_objects.specs.declared.kind.ObjKind.TheVariants as kind;

use crate::machine::{function_at, may_start};
use flow_code::Code;
use sync_objects::{ObjKind, Setup};

// A mutex or a stripe: 0, or one more than the thread that holds it.
fn lock_fits(code: &Code, setup: &Setup, operations: u32, state: u32) -> bool
    ensures mutex { result ≡ conditions.number_fits code.now setup.now operations kind.Mutex state }
    ensures stripe { result ≡ conditions.number_fits code.now setup.now operations kind.Weak state }
{
    let _code = code;
    let _operations = operations;
    state <= u32::from(setup.slots())
}

// A barrier: 5 bits of count, 5 bits of threads that have come, then the generation.
fn barrier_fits(code: &Code, setup: &Setup, operations: u32, state: u32) -> bool
    ensures { result ≡ conditions.number_fits code.now setup.now operations kind.Barrier state }
{
    let _code = code;
    let _setup = setup;
    let count = state % 32;
    let arrived = state / 32 % 32;
    let generation = state / 1024;
    count <= 16 && arrived < count.max(1) && generation < 4_194_304 && generation <= operations
}

// A read-write lock: 16 bits of readers, then 0 or one more than the writer.
fn rw_fits(code: &Code, setup: &Setup, operations: u32, state: u32) -> bool
    ensures { result ≡ conditions.number_fits code.now setup.now operations kind.Rw state }
{
    let _code = code;
    let _operations = operations;
    let slots = u32::from(setup.slots());
    state % 65_536 < 1 << slots && state / 65_536 <= slots
}

// A slot: 0 to 5 without a function, from 6 on the started function.
fn slot_fits(code: &Code, setup: &Setup, operations: u32, state: u32) -> bool
    ensures { result ≡ conditions.number_fits code.now setup.now operations kind.Slot state }
{
    let _setup = setup;
    let _operations = operations;
    state < 6 || may_start(function_at(code, state - 6))
}

// The threads: 5 bits of those drawn, then those that live.
fn threads_fit(code: &Code, setup: &Setup, operations: u32, state: u32) -> bool
    ensures { result ≡ conditions.number_fits code.now setup.now operations kind.Threads state }
{
    let _code = code;
    let _operations = operations;
    let drawn = state % 32;
    1 <= drawn && drawn <= u32::from(setup.slots()) && state / 32 <= drawn
}

// The input: the position in it.
fn input_fits(code: &Code, setup: &Setup, operations: u32, state: u32) -> bool
    ensures { result ≡ conditions.number_fits code.now setup.now operations kind.Input state }
{
    let _code = code;
    state <= operations && state as usize <= setup.input().len()
}

/// Whether it is the number of a state that an object of this kind can have after so many operations.
pub fn number_fits(code: &Code, setup: &Setup, operations: u32, kind: ObjKind, state: u32) -> bool
    ensures { result ≡ conditions.number_fits code.now setup.now operations kind state }
{
    match kind {
        ObjKind::Mutex => lock_fits(code, setup, operations, state),
        ObjKind::Weak => lock_fits(code, setup, operations, state),
        ObjKind::Cond => state <= operations,
        ObjKind::Barrier => barrier_fits(code, setup, operations, state),
        ObjKind::Rw => rw_fits(code, setup, operations, state),
        ObjKind::Slot => slot_fits(code, setup, operations, state),
        ObjKind::Threads => threads_fit(code, setup, operations, state),
        ObjKind::Halt => state <= 2,
        ObjKind::Input => input_fits(code, setup, operations, state),
        ObjKind::Output => state == 0,
    }
}
