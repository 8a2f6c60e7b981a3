//! The accesses of instructions, and the places that they may touch.
ghost use Rattle.std.specs.Prelude.{◌≡◌};
ghost use Rattle.facts.specs.Accesses.{library_access, access_of, through_of};
ghost use Rattle.facts.specs.PointsTo.{HasRegisters};
ghost use Rattle.facts.specs.Pairs as spec;

use crate::pair::AccessAt;
use crate::points::PointsTo;
use flow_code::{Act, Code};
use rr_base::Place;
use word_semantics::LibraryCall;

fn through_call(call: &LibraryCall, arguments: &[u32]) -> Option<u32>
    ensures { result ≡ through_of (library_access call.now arguments.now) }
{
    match (call, arguments) {
        (LibraryCall::Create { function: _ }, [thread, _]) => Some(*thread),
        (LibraryCall::Join, [_, into]) => Some(*into),
        _ => None,
    }
}

/// The register that points to the cell which an instruction loads or stores.
pub fn through(act: &Act) -> Option<u32>
    ensures { result ≡ through_of (access_of act.now) }
{
    match act {
        Act::LoadCell { into: _, through } => Some(*through),
        Act::StoreCell { through, from: _ } => Some(*through),
        Act::Library {
            call,
            arguments,
            into: _,
        } => through_call(call, arguments.as_slice()),
        _ => None,
    }
}

/// The places of which an access may touch a cell.
pub fn places_of<'a>(code: &Code, points: &'a PointsTo, at: AccessAt) -> &'a [Place]
    requires { HasRegisters code.now points.now }
    ensures { result.now ≡ spec.places_of code.now points.now at }
{
    let Some(function) = code.functions.get(at.function as usize) else {
        return &[];
    };
    let Some(instr) = function.instrs.get(at.instr as usize) else {
        return &[];
    };
    match through(&instr.act) {
        Some(register) if register < function.registers => {
            points.of_register(at.function, register).as_slice()
        }
        _ => &[],
    }
}
