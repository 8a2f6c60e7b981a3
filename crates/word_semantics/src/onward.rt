// What the answers to the events of calls lead to.
ghost use Rattle.std.specs.Prelude.{◌≡◌};
ghost use Rattle.word_semantics.specs.Library as spec;
ghost use Rattle.word_semantics.specs.Registers.{words_of};

use crate::caller::Caller;
use crate::evaluate::{truth, word};
use crate::event::Onward;
use crate::library::{argument, is_misuse, is_serial};
use crate::library_call::LibraryCall;
use crate::printing::piece_len;

// EAGAIN (POSIX errno.h): no thread is left to create.
const NO_THREAD_LEFT: u64 = 11;

fn create_onward(made: u8, kept: i64, answer: i64) -> Onward
    ensures { result ≡ spec.create_onward made kept answer }
{
    match made {
        0 if answer == 0 => Onward::Gives {
            value: NO_THREAD_LEFT,
        },
        0 => Onward::Stays { kept: answer },
        1 | 2 => Onward::Stays { kept },
        _ => Onward::Gives { value: 0 },
    }
}

fn join_onward(asked: bool, made: u8, answer: i64) -> Onward
    ensures { result ≡ spec.join_onward asked made answer }
{
    match made {
        0 if asked || is_misuse(answer) => Onward::Stays { kept: answer },
        1 => Onward::Stays { kept: answer },
        _ => Onward::Gives { value: 0 },
    }
}

fn exit_onward(made: u8, kept: i64) -> Onward
    ensures { result ≡ spec.exit_onward made kept }
{
    match made {
        0 | 1 => Onward::Stays { kept },
        _ => Onward::Ends,
    }
}

fn checked_onward(made: u8, answer: i64) -> Onward
    ensures { result ≡ spec.checked_onward made answer }
{
    if made == 0 && is_misuse(answer) {
        Onward::Stays { kept: answer }
    } else {
        Onward::Gives { value: 0 }
    }
}

fn try_onward(made: u8, kept: i64, answer: i64) -> Onward
    ensures { result ≡ spec.try_onward made kept answer }
{
    Onward::Gives {
        value: word(if made == 0 { answer } else { kept }),
    }
}

fn wait_onward(made: u8, kept: i64, answer: i64) -> Onward
    ensures { result ≡ spec.wait_onward made kept answer }
{
    match made {
        0 => Onward::Stays { kept: answer },
        1 if is_misuse(answer) => Onward::Stays { kept: answer },
        1 | 2 => Onward::Stays { kept },
        _ => Onward::Gives { value: 0 },
    }
}

fn barrier_wait_onward(made: u8, kept: i64, answer: i64) -> Onward
    ensures { result ≡ spec.barrier_wait_onward made kept answer }
{
    let arrived = if made == 0 { answer } else { kept };
    if is_serial(arrived) {
        Onward::Gives {
            value: word(arrived),
        }
    } else if made == 0 {
        Onward::Stays { kept: answer }
    } else {
        Onward::Gives { value: 0 }
    }
}

// The byte at this place of the input, or EOF as a word (C99 7.19.7.6).
fn character(input: &[u8], place: i64) -> u64
    ensures { result ≡ spec.character input.now place }
{
    let byte = match usize::try_from(place) {
        Ok(place) => input.get(place),
        Err(_) => None,
    };
    match byte {
        Some(byte) => u64::from(*byte),
        None => word(-1),
    }
}

/// What the answer to an event of a call leads to, of whose events `made` were made before, with the last answer
/// that it keeps.
pub fn library_onward(
    caller: &Caller,
    call: &LibraryCall,
    registers: &[u64],
    arguments: &[u32],
    made: u8,
    kept: i64,
    answer: i64,
) -> Onward
    ensures { result ≡ spec.library_onward caller.now call.now (words_of registers.now arguments.now) made kept answer }
{
    match call {
        LibraryCall::Create { function: _ } => create_onward(made, kept, answer),
        LibraryCall::Join => join_onward(argument(registers, arguments, 1) != 0, made, answer),
        LibraryCall::Exit => exit_onward(made, kept),
        LibraryCall::SelfNumber => Onward::Gives {
            value: u64::from(caller.thread()),
        },
        LibraryCall::SameThread => Onward::Gives {
            value: truth(argument(registers, arguments, 0) == argument(registers, arguments, 1)),
        },
        LibraryCall::MutexInit
        | LibraryCall::MutexLock
        | LibraryCall::MutexUnlock
        | LibraryCall::BarrierInit
        | LibraryCall::RwInit
        | LibraryCall::RwRdLock
        | LibraryCall::RwWrLock
        | LibraryCall::RwUnlock => checked_onward(made, answer),
        LibraryCall::MutexTryLock => try_onward(made, kept, answer),
        LibraryCall::CondWait => wait_onward(made, kept, answer),
        LibraryCall::BarrierWait => barrier_wait_onward(made, kept, answer),
        LibraryCall::GetChar => Onward::Gives {
            value: character(caller.setup().input().as_slice(), answer),
        },
        LibraryCall::Print { format: _ } => Onward::Gives {
            value: (piece_len(call, registers, arguments) % (1 << 64)) as u64,
        },
        LibraryCall::PutChar => Onward::Gives {
            value: argument(registers, arguments, 0),
        },
        _ => Onward::Gives { value: 0 },
    }
}
