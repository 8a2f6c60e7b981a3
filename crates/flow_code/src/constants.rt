// The constants of a code. Each fits 64 bits by its type; what is said here is said to those who know a code alone.
ghost use Rattle.std.specs.Prelude.{◌≡◌, true};
ghost use Rattle.word_semantics.specs.Values.{fits as fits_word};
ghost use Rattle.flow_code.specs.Constants as spec;

use crate::act::{Act, Instr};
use crate::code::{Code, Function};
use crate::work::Work;

fn fits(value: i64) -> bool
    ensures value { result ≡ fits_word value }
    ensures always { result ≡ true }
{
    i64::MIN <= value
}

fn constant_fits(act: &Act) -> bool
    ensures value { result ≡ spec.constant_fits act.now }
    ensures always { result ≡ true }
{
    match act {
        Act::Compute {
            into: _,
            work: Work::Constant(value),
        } => fits(*value),
        _ => true,
    }
}

fn constants_fit_in(instrs: &[Instr]) -> bool
    ensures value { result ≡ spec.constants_fit_in instrs.now }
    ensures always { result ≡ true }
{
    for instr in instrs {
        if !constant_fits(&instr.act) {
            return false;
        }
    }
    true
}

fn constants_fit_of(functions: &[Function]) -> bool
    ensures value { result ≡ spec.constants_fit_of functions.now }
    ensures always { result ≡ true }
{
    for function in functions {
        if !constants_fit_in(function.instrs.as_slice()) {
            return false;
        }
    }
    true
}

/// Whether each constant fits 64 bits, as it does in every code that stands in memory: its type says so.
pub fn constants_fit(code: &Code) -> bool
    ensures value { result ≡ spec.constants_fit code.now }
    ensures always { result ≡ true }
{
    constants_fit_of(code.functions.as_slice())
}
