//! Reading a source.
ghost use Rattle.std.specs.Prelude.{◌≡◌, ◌≤◌, ◌^◌, length, All, Ok, IfOk, IfErr};
ghost use Rattle.c_lexer.specs.Spans.{IsPlaced};
ghost use Rattle.c_tree.specs.View.{program_of};
ghost use Rattle.c_sites.specs.Whole.{first_fault};
ghost use Rattle.front.specs.Readings as spec;

use c_lexer::{LexFault, Token, tokens};
use c_parser::{ParseFault, parse};
use c_sites::{TypeFault, Typed, check};
use c_tree::Program;
use rr_base::{List, Position};
use std::alloc::Global;
use thiserror::Error;

/// Why a source is refused: the number by which messages tell it, and the place at which it stands.
#[derive(Clone, Copy, Debug, PartialEq, Eq, Error)]
#[error("fault {number} at {}:{}", .at.line, .at.column)]
pub struct SourceFault {
    pub number: u8,
    pub at: Position,
}

/// Why a source isn't compiled.
#[derive(Clone, Copy, Debug, PartialEq, Eq, Error)]
pub enum CompileFault {
    #[error(transparent)]
    Source(SourceFault),
    /// The machine has no memory left.
    #[error("out of memory")]
    OutOfMemory,
}

// The fault of this number at this place, where it has both.
fn fault_at(number: Option<u8>, at: Option<Position>) -> Option<SourceFault>
    ensures { result ≡ spec.fault_at number at }
{
    match (number, at) {
        (Some(number), Some(at)) => Some(SourceFault { number, at }),
        _ => None,
    }
}

// What is told of a fault in the tokens; nothing of `OutOfMemory`.
fn refusal_of(fault: LexFault) -> Option<SourceFault>
    ensures { result ≡ spec.refusal_of fault }
{
    fault_at(fault.number(), fault.place())
}

// What is told of a fault of the grammar; nothing of `OutOfMemory`.
fn told_of(fault: ParseFault) -> Option<SourceFault>
    ensures { result ≡ spec.told_of fault }
{
    fault_at(fault.number(), fault.place())
}

fn compile_fault(fault: Option<SourceFault>) -> CompileFault
    ensures { result ≡ spec.compile_fault fault }
{
    match fault {
        Some(fault) => CompileFault::Source(fault),
        None => CompileFault::OutOfMemory,
    }
}

fn by_tree(alloc: Global, program: Program) -> Result<Typed, CompileFault>
    ensures sound { IfOk result (λ t. spec.sound (program_of t.program) ≡ spec.by_first_fault (program_of program) (first_fault (program_of program))) }
    ensures refused { IfErr result (spec.IsRefusedBy (λ r. r ≡ spec.by_first_fault (program_of program) (first_fault (program_of program)))) }
{
    match check(alloc, program) {
        Ok(typed) => Ok(typed),
        Err(TypeFault::Found(found)) => Err(CompileFault::Source(SourceFault {
            number: found.fault.number(),
            at: found.at,
        })),
        Err(TypeFault::OutOfMemory) => Err(CompileFault::OutOfMemory),
    }
}

fn by_tokens(alloc: Global, tokens: &List<Token>) -> Result<Typed, CompileFault>
    requires { All IsPlaced tokens.now }
    ensures sound { IfOk result (λ t. spec.IsByTokens (Ok tokens.now) (spec.sound (program_of t.program))) }
    ensures refused { IfErr result (spec.IsRefusedBy (spec.IsByTokens (Ok tokens.now))) }
{
    match parse(alloc, tokens) {
        Ok(program) => by_tree(alloc, program),
        Err(fault) => Err(compile_fault(told_of(fault))),
    }
}

/// The tree of a source without a fault.
///
/// # Errors
/// The first fault of the tokens (1 to 6), else of the grammar (7, 8, 20), else of the types (9 to 20), with its place;
/// `OutOfMemory` if the source doesn't fit into memory.
pub fn typed(alloc: Global, text: &[u8]) -> Result<Typed, CompileFault>
    requires { length text.now ≤ 2 ^ 20 }
    ensures sound { IfOk result (λ t. spec.IsReading text.now (spec.sound (program_of t.program))) }
    ensures refused { IfErr result (λ f. spec.IsRefusedFor text.now f) }
{
    match tokens(alloc, text) {
        Ok(tokens) => by_tokens(alloc, &tokens),
        Err(fault) => Err(compile_fault(refusal_of(fault))),
    }
}

/// A text has one reading: whatever `typed` answers is the only thing that fits.
pub fn law_one_reading()
    ensures { spec.OneReading }
{}
