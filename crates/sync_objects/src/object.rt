ghost use Rattle.std.specs.Prelude.{◌≡◌};
ghost use Rattle.sync_objects.specs.Names.{object_kind};
ghost use Rattle.sync_objects.specs.Sound.{IsSoundWord};
ghost use Rattle.sync_objects.specs.Start.{packed_start, start_word};

use crate::kind::ObjKind;
use crate::rows::{halt, lock, rwlock, slot, threads};
use crate::word::word_of;

/// A synchronisation object. Mutexes, conditions, barriers and read-write locks are named by their cell.
#[derive(Clone, Copy, Debug, PartialEq, Eq, Hash)]
pub enum ObjId {
    Mutex(u32),
    Cond(u32),
    Barrier(u32),
    /// A read-write lock.
    Rw(u32),
    /// A stripe of a weak lock.
    Weak { lock: u16, stripe: u8 },
    /// The life of one thread.
    Slot(u8),
    /// How many threads were drawn, and how many are live.
    Threads,
    /// Whether the program runs.
    Halt,
    /// The input and the place in it.
    Input,
    /// The output.
    Output,
}

impl ObjId {
    /// The object's kind.
    pub fn kind(self) -> ObjKind
        ensures { result ≡ object_kind self }
    {
        match self {
            ObjId::Mutex(_) => ObjKind::Mutex,
            ObjId::Cond(_) => ObjKind::Cond,
            ObjId::Barrier(_) => ObjKind::Barrier,
            ObjId::Rw(_) => ObjKind::Rw,
            ObjId::Weak { .. } => ObjKind::Weak,
            ObjId::Slot(_) => ObjKind::Slot,
            ObjId::Threads => ObjKind::Threads,
            ObjId::Halt => ObjKind::Halt,
            ObjId::Input => ObjKind::Input,
            ObjId::Output => ObjKind::Output,
        }
    }
}

/// The object's word before any operation: thread 0 has begun, and it is drawn and live.
#[tactic(auto, using(crate::proofs::Soundness::start_is_sound))]
pub fn start_word(obj: ObjId) -> u64
    ensures word { result ≡ start_word obj }
    ensures sound { IsSoundWord (object_kind obj) result }
{
    word_of(0, packed_start(obj))
}

#[tactic(auto, using(crate::proofs::Starts::starts))]
fn packed_start(obj: ObjId) -> u32
    ensures { result ≡ packed_start obj }
{
    match obj {
        ObjId::Mutex(_) | ObjId::Weak { .. } => lock::FREE,
        ObjId::Cond(_) | ObjId::Barrier(_) => 0,
        ObjId::Rw(_) => rwlock::UNHELD,
        ObjId::Slot(slot) => if slot == 0 { slot::BEGUN } else { slot::IDLE },
        ObjId::Threads => threads::START,
        ObjId::Halt => halt::RUNNING,
        ObjId::Input | ObjId::Output => 0,
    }
}
