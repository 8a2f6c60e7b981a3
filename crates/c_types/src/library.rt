//! The calls of the library: their names, and which arguments they want (C99 7, POSIX threads).
ghost use Rattle.std.specs.Prelude.{◌≡◌, map};
ghost use Rattle.rr_base.specs.Texts.{entry_of};
ghost use Rattle.c_types.specs.Library as spec;

use crate::types::BaseType;

/// A type without arrays: so many pointers to a base.
#[derive(Clone, Copy, Debug)]
pub struct StarredType {
    pub stars: usize,
    pub base: BaseType,
}

/// What a call wants in the place of an argument.
#[derive(Clone, Copy, Debug)]
pub enum Wanted {
    /// What can be stored into an object of the type.
    Fits(StarredType),
    /// Anything, since the type that is wanted has a fault.
    Anything,
    /// `NULL` or `0`.
    Attribute,
    /// The name of a function that a thread can begin with.
    Root,
    /// A text.
    Text,
}

/// A call of the library.
#[derive(Clone, Copy, Debug)]
pub enum LibraryName {
    Create,
    Join,
    Exit,
    SelfNumber,
    SameThread,
    MutexInit,
    MutexLock,
    MutexUnlock,
    MutexTryLock,
    MutexDestroy,
    CondInit,
    CondWait,
    CondSignal,
    CondBroadcast,
    CondDestroy,
    BarrierInit,
    BarrierWait,
    BarrierDestroy,
    RwInit,
    RwRdLock,
    RwWrLock,
    RwUnlock,
    RwDestroy,
    Malloc,
    Free,
    GetChar,
    PrintFormat,
    PutChar,
    PutText,
}

static CALLS: [(&[u8], LibraryName); 29] = [
    (b"pthread_create", LibraryName::Create),
    (b"pthread_join", LibraryName::Join),
    (b"pthread_exit", LibraryName::Exit),
    (b"pthread_self", LibraryName::SelfNumber),
    (b"pthread_equal", LibraryName::SameThread),
    (b"pthread_mutex_init", LibraryName::MutexInit),
    (b"pthread_mutex_lock", LibraryName::MutexLock),
    (b"pthread_mutex_unlock", LibraryName::MutexUnlock),
    (b"pthread_mutex_trylock", LibraryName::MutexTryLock),
    (b"pthread_mutex_destroy", LibraryName::MutexDestroy),
    (b"pthread_cond_init", LibraryName::CondInit),
    (b"pthread_cond_wait", LibraryName::CondWait),
    (b"pthread_cond_signal", LibraryName::CondSignal),
    (b"pthread_cond_broadcast", LibraryName::CondBroadcast),
    (b"pthread_cond_destroy", LibraryName::CondDestroy),
    (b"pthread_barrier_init", LibraryName::BarrierInit),
    (b"pthread_barrier_wait", LibraryName::BarrierWait),
    (b"pthread_barrier_destroy", LibraryName::BarrierDestroy),
    (b"pthread_rwlock_init", LibraryName::RwInit),
    (b"pthread_rwlock_rdlock", LibraryName::RwRdLock),
    (b"pthread_rwlock_wrlock", LibraryName::RwWrLock),
    (b"pthread_rwlock_unlock", LibraryName::RwUnlock),
    (b"pthread_rwlock_destroy", LibraryName::RwDestroy),
    (b"malloc", LibraryName::Malloc),
    (b"free", LibraryName::Free),
    (b"getchar", LibraryName::GetChar),
    (b"printf", LibraryName::PrintFormat),
    (b"putchar", LibraryName::PutChar),
    (b"puts", LibraryName::PutText),
];

fn call_in(mut table: &[(&[u8], LibraryName)], name: &[u8]) -> Option<LibraryName>
    ensures { result ≡ entry_of (map (λ e. (e.0.now, e.1)) table.entry.now) name.now }
{
    while let [entry, rest @ ..] = table {
        if name == entry.0 {
            return Some(entry.1);
        }
        table = rest;
    }
    None
}

/// The call of the library that has this name, if any.
#[tactic(auto, unfolding(crate::specs::Library::library_named))]
pub fn library_named(name: &[u8]) -> Option<LibraryName>
    ensures { result ≡ spec.library_named name.now }
{
    call_in(&CALLS, name)
}

/// The arguments that the call wants; of `printf` the first one.
pub fn wanted_by(call: LibraryName) -> &'static [Wanted]
    ensures { result.now ≡ spec.wanted_by call }
{
    match call {
        LibraryName::Create => &CREATE,
        LibraryName::Join => &JOIN,
        LibraryName::Exit | LibraryName::Free => &[TO_VOID],
        LibraryName::SelfNumber | LibraryName::GetChar => &[],
        LibraryName::SameThread => &[INT, INT],
        LibraryName::MutexInit => &[TO_MUTEX, Wanted::Attribute],
        LibraryName::MutexLock
        | LibraryName::MutexUnlock
        | LibraryName::MutexTryLock
        | LibraryName::MutexDestroy => &[TO_MUTEX],
        LibraryName::CondInit => &[TO_COND, Wanted::Attribute],
        LibraryName::CondWait => &[TO_COND, TO_MUTEX],
        LibraryName::CondSignal | LibraryName::CondBroadcast | LibraryName::CondDestroy => {
            &[TO_COND]
        }
        LibraryName::BarrierInit => &[TO_BARRIER, Wanted::Attribute, INT],
        LibraryName::BarrierWait | LibraryName::BarrierDestroy => &[TO_BARRIER],
        LibraryName::RwInit => &[TO_RWLOCK, Wanted::Attribute],
        LibraryName::RwRdLock
        | LibraryName::RwWrLock
        | LibraryName::RwUnlock
        | LibraryName::RwDestroy => &[TO_RWLOCK],
        LibraryName::Malloc | LibraryName::PutChar => &[INT],
        LibraryName::PrintFormat | LibraryName::PutText => &[Wanted::Text],
    }
}

const INT: Wanted = Wanted::Fits(StarredType {
    stars: 0,
    base: BaseType::Int,
});

const TO_INT: Wanted = Wanted::Fits(StarredType {
    stars: 1,
    base: BaseType::Int,
});

const TO_VOID: Wanted = Wanted::Fits(StarredType {
    stars: 1,
    base: BaseType::Void,
});

const TO_TO_VOID: Wanted = Wanted::Fits(StarredType {
    stars: 2,
    base: BaseType::Void,
});

const TO_MUTEX: Wanted = Wanted::Fits(StarredType {
    stars: 1,
    base: BaseType::Mutex,
});

const TO_COND: Wanted = Wanted::Fits(StarredType {
    stars: 1,
    base: BaseType::Cond,
});

const TO_BARRIER: Wanted = Wanted::Fits(StarredType {
    stars: 1,
    base: BaseType::Barrier,
});

const TO_RWLOCK: Wanted = Wanted::Fits(StarredType {
    stars: 1,
    base: BaseType::RwLock,
});

static CREATE: [Wanted; 4] = [TO_INT, Wanted::Attribute, Wanted::Root, TO_VOID];

static JOIN: [Wanted; 2] = [INT, TO_TO_VOID];

/// What the call gives, but for `malloc`.
pub fn given_by(call: LibraryName) -> BaseType
    ensures { result ≡ spec.given_by call }
{
    match call {
        LibraryName::Exit | LibraryName::Free => BaseType::Void,
        _ => BaseType::Int,
    }
}
