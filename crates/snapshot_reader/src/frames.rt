// The lines of frames.
ghost use Rattle.std.specs.Prelude.{◌≡◌, None};
ghost use Rattle.std.specs.Option.{option_copied};
ghost use Rattle.flow_code.specs.Next.{act_at as act_at_of};
ghost use Rattle.snapshots.specs.Conditions as conditions;
ghost use Rattle.snapshot_reader.specs.Misfits.{Misfits};
ghost use Rattle.thread_interpreter.specs.Parts.{frame_of};

use crate::calls::{Made, call_goes_on};
use crate::machine::{act_at, function_at, registers_of};
use flow_code::{Act, Code};
use sync_objects::Setup;
use thread_interpreter::FramePart;
use word_semantics::number;

// What the frame's instruction does.
fn act_of<'a>(code: &'a Code, frame: &FramePart) -> Option<&'a Act>
    ensures { option_copied result ≡ act_at_of code.now (frame_of frame.now) }
{
    act_at(function_at(code, frame.function), frame.instr)
}

fn calls(act: Option<&Act>, function: u32) -> bool
    ensures { result ≡ conditions.calls (option_copied act.entry) function }
{
    match act {
        Some(
            Act::Call {
                function: called,
                ..
            },
        ) => *called == function,
        _ => false,
    }
}

fn is_called(code: &Code, before: Option<&FramePart>, function: u32) -> bool
    ensures { result ≡ conditions.is_called code.now (option_copied before.entry) function }
{
    match before {
        None => true,
        Some(before) => calls(act_of(code, before), function),
    }
}

fn goes_on(code: &Code, setup: &Setup, act: Option<&Act>, frame: &FramePart) -> bool
    ensures { result ≡ conditions.goes_on code.now setup.now (option_copied act.entry) frame.now }
{
    match act {
        Some(
            Act::Library {
                call,
                arguments,
                ..
            },
        ) => {
            let made = Made {
                sites: code.sites.as_slice(),
                slots: setup.slots(),
                registers: frame.registers.as_slice(),
                arguments: arguments.as_slice(),
                made: frame.made,
                kept: number(frame.kept),
            };
            frame.made == 0 || call_goes_on(call, made)
        }
        _ => true,
    }
}

fn frame_fits(code: &Code, setup: &Setup, before: Option<&FramePart>, frame: &FramePart) -> bool
    ensures { result ≡ conditions.frame_fits code.now setup.now (option_copied before.entry) frame.now }
{
    let act = act_of(code, frame);
    act.is_some()
        && frame.registers.len() == registers_of(function_at(code, frame.function)) as usize
        && frame.made <= 8
        && goes_on(code, setup, act, frame)
        && is_called(code, before, frame.function)
}

/// The line of the first frame that isn't as it must be.
pub fn misfit_frame(code: &Code, setup: &Setup, first: u32, frames: &[FramePart]) -> Option<u32>
    ensures { Misfits (conditions.frames_judged code.now setup.now None frames.now) first result }
{
    let mut line = first;
    let mut before = None;
    let mut rest = frames;
    while let [frame, more @ ..] = rest {
        if !frame_fits(code, setup, before, frame) {
            return Some(line);
        }
        before = Some(frame);
        line = line.saturating_add(1);
        rest = more;
    }
    None
}
