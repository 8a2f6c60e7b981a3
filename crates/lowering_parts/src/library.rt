//! Calls of the library.
ghost use Rattle.std.specs.Prelude.{◌≡◌, IfOk};
ghost use Rattle.lowering_parts.specs.Sizes as spec;

use rr_base::List;
use std::alloc::{AllocError, Global};
use word_semantics::LibraryCall;

/// Whether a call gives nothing.
pub fn gives_nothing(call: &LibraryCall) -> bool
    ensures { result ≡ spec.gives_nothing call.now }
{
    match call {
        LibraryCall::Exit => true,
        LibraryCall::Free => true,
        _ => false,
    }
}

/// The instructions of a call after those of its arguments.
pub fn library_size(call: &LibraryCall) -> u32
    ensures { result ≡ spec.library_size call.now }
{
    if gives_nothing(call) { 2 } else { 1 }
}

/// The same call.
pub fn copy_of(alloc: Global, call: &LibraryCall) -> Result<LibraryCall, AllocError>
    ensures { IfOk result (λ c. c ≡ call.now) }
{
    let copy = match call {
        LibraryCall::Create { function } => LibraryCall::Create {
            function: *function,
        },
        LibraryCall::Join => LibraryCall::Join,
        LibraryCall::Exit => LibraryCall::Exit,
        LibraryCall::SelfNumber => LibraryCall::SelfNumber,
        LibraryCall::SameThread => LibraryCall::SameThread,
        LibraryCall::MutexInit => LibraryCall::MutexInit,
        LibraryCall::MutexLock => LibraryCall::MutexLock,
        LibraryCall::MutexUnlock => LibraryCall::MutexUnlock,
        LibraryCall::MutexTryLock => LibraryCall::MutexTryLock,
        LibraryCall::MutexDestroy => LibraryCall::MutexDestroy,
        LibraryCall::CondInit => LibraryCall::CondInit,
        LibraryCall::CondWait => LibraryCall::CondWait,
        LibraryCall::CondSignal => LibraryCall::CondSignal,
        LibraryCall::CondDestroy => LibraryCall::CondDestroy,
        LibraryCall::BarrierInit => LibraryCall::BarrierInit,
        LibraryCall::BarrierWait => LibraryCall::BarrierWait,
        LibraryCall::BarrierDestroy => LibraryCall::BarrierDestroy,
        LibraryCall::RwInit => LibraryCall::RwInit,
        LibraryCall::RwRdLock => LibraryCall::RwRdLock,
        LibraryCall::RwWrLock => LibraryCall::RwWrLock,
        LibraryCall::RwUnlock => LibraryCall::RwUnlock,
        LibraryCall::RwDestroy => LibraryCall::RwDestroy,
        LibraryCall::Free => LibraryCall::Free,
        LibraryCall::GetChar => LibraryCall::GetChar,
        LibraryCall::Print { format } => LibraryCall::Print {
            format: List::from_slice(alloc, format.as_slice())?,
        },
        LibraryCall::PutChar => LibraryCall::PutChar,
    };
    Ok(copy)
}
