// Library calls of which some events are made.
ghost use Rattle.std.specs.Prelude.{◌≡◌, ◌<◌};
ghost use Rattle.snapshots.specs.Conditions as conditions;
ghost use Rattle.word_semantics.specs.Registers.{words_of};

use rr_base::{CellKind, Site};
use word_semantics::{LibraryCall, argument, is_misuse, is_serial, number, resolved};

/// A library call in a frame: its arguments' registers, how many of its events are made, and the last answer that it keeps.
#[derive(Clone, Copy)]
pub struct Made<'a> {
    pub sites: &'a [Site],
    pub slots: u8,
    pub registers: &'a [u64],
    pub arguments: &'a [u32],
    pub made: u8,
    pub kept: i64,
}

fn is_below(bound: u64, answer: i64) -> bool
    ensures { result ≡ conditions.is_below bound answer }
{
    match u64::try_from(answer) {
        Ok(answer) => answer < bound,
        Err(_) => false,
    }
}

fn leads(call: Made, k: usize, want: CellKind) -> bool
    ensures { result ≡ conditions.leads call.entry.sites.now (words_of call.entry.registers.now call.entry.arguments.now) k want }
{
    let word = argument(call.registers, call.arguments, k);
    resolved(call.sites, word, want).is_ok()
}

fn create_fits(call: Made) -> bool
    ensures { result ≡ conditions.create_fits call.entry.sites.now call.entry.slots (words_of call.entry.registers.now call.entry.arguments.now) call.entry.made call.entry.kept }
{
    is_below(u64::from(call.slots), call.kept)
        && (3 <= call.made || leads(call, 0, CellKind::Whole))
}

fn join_fits(call: Made) -> bool
    ensures { result ≡ conditions.join_fits call.entry.sites.now call.entry.slots (words_of call.entry.registers.now call.entry.arguments.now) call.entry.made call.entry.kept }
{
    if call.made == 1 {
        let slot = number(argument(call.registers, call.arguments, 0));
        is_misuse(call.kept)
            || (is_below(u64::from(call.slots), slot) && leads(call, 1, CellKind::Pointer))
    } else {
        leads(call, 1, CellKind::Pointer)
    }
}

fn wait_fits(call: Made) -> bool
    ensures { result ≡ conditions.wait_fits call.entry.sites.now (words_of call.entry.registers.now call.entry.arguments.now) call.entry.made call.entry.kept }
{
    (call.made == 2 && is_misuse(call.kept))
        || ((3 <= call.made
            || (leads(call, 0, CellKind::Cond) && is_below(4_294_967_296, call.kept)))
            && leads(call, 1, CellKind::Mutex))
}

fn barrier_wait_fits(call: Made) -> bool
    ensures { result ≡ conditions.barrier_wait_fits call.entry.sites.now (words_of call.entry.registers.now call.entry.arguments.now) call.entry.kept }
{
    is_misuse(call.kept)
        || is_serial(call.kept)
        || (leads(call, 0, CellKind::Barrier) && is_below(4_194_304, call.kept))
}

/// Whether what the remaining events of the call name is there.
pub fn call_goes_on(library: &LibraryCall, call: Made) -> bool
    ensures { result ≡ conditions.call_goes_on call.entry.sites.now call.entry.slots library.now (words_of call.entry.registers.now call.entry.arguments.now) call.entry.made call.entry.kept }
{
    match library {
        LibraryCall::Create { .. } => create_fits(call),
        LibraryCall::Join => join_fits(call),
        LibraryCall::CondWait => wait_fits(call),
        LibraryCall::BarrierWait => barrier_wait_fits(call),
        _ => true,
    }
}
