ghost use Rattle.std.specs.Prelude.{◌≡◌, ◌↔◌, IsTrue};
ghost use Rattle.sync_objects.specs.Names.{name_of, kind_of, Fits, is_ending, is_weak};

use crate::kind::ObjKind;
use crate::object::ObjId;

/// An operation on a synchronisation object, with what it carries. What each of them does is in the table of
/// `advance`; POSIX calls of more than one step, as `pthread_cond_wait`, are made of several.
#[derive(Clone, Copy, Debug, PartialEq, Eq)]
pub enum Op {
    Lock,
    TryLock,
    Unlock,
    MutexInit,
    /// A thread begins to wait on a condition.
    CondEnter,
    /// A thread that began to wait in this epoch goes on.
    CondWake { epoch: u32 },
    /// All threads that wait on a condition are woken.
    Signal,
    /// A barrier waits for so many threads.
    BarrierInit { count: u8 },
    /// A thread comes to a barrier.
    Arrive,
    /// A thread that came in this generation goes on.
    Pass { generation: u32 },
    /// A thread holds a read-write lock for reading, maybe beside others.
    RdLock,
    /// A thread holds a read-write lock for writing, which no other thread holds.
    WrLock,
    /// A thread holds a read-write lock no more.
    RwUnlock,
    RwInit,
    /// A thread takes a stripe of a weak lock.
    Take,
    /// A thread takes a stripe again that was taken from it.
    Retake,
    /// A thread gives a stripe back.
    Give,
    /// A stripe is taken from the thread that holds it.
    Revoke,
    /// A thread draws the number of the next thread, in a run of so many slots: 1 to 16.
    Draw { slots: u8 },
    /// A slot's thread may begin with the function of this number, which is below 2^20.
    Start { function: u32 },
    /// A thread begins.
    Begin,
    /// The function of a thread has ended.
    End,
    /// A thread waits for another one's end.
    Join,
    /// A slot whose thread hasn't begun is taken out of the run.
    Close,
    /// A thread that has ended is live no more.
    Leave,
    /// `main` has returned.
    HaltAll,
    /// A thread has trapped.
    TrapHere,
    /// A thread ends since the program has.
    Stop,
    /// One byte is read of an input of so many bytes.
    GetChar { len: u32 },
    /// Bytes are printed.
    Print,
}

/// The name of an operation, as entries of a log show it.
#[derive(Clone, Copy, Debug, PartialEq, Eq)]
pub enum OpName {
    Lock,
    TryLock,
    Unlock,
    MutexInit,
    CondEnter,
    CondWake,
    Signal,
    BarrierInit,
    Arrive,
    Pass,
    RdLock,
    WrLock,
    RwUnlock,
    RwInit,
    Take,
    Retake,
    Give,
    Revoke,
    Draw,
    Start,
    Begin,
    End,
    Join,
    Close,
    Leave,
    HaltAll,
    TrapHere,
    Stop,
    GetChar,
    Print,
}

impl Op {
    /// The operation without what it carries.
    pub fn name(self) -> OpName
        ensures { result ≡ name_of self }
    {
        match self {
            Op::Lock => OpName::Lock,
            Op::TryLock => OpName::TryLock,
            Op::Unlock => OpName::Unlock,
            Op::MutexInit => OpName::MutexInit,
            Op::CondEnter => OpName::CondEnter,
            Op::CondWake { .. } => OpName::CondWake,
            Op::Signal => OpName::Signal,
            Op::BarrierInit { .. } => OpName::BarrierInit,
            Op::Arrive => OpName::Arrive,
            Op::Pass { .. } => OpName::Pass,
            Op::RdLock => OpName::RdLock,
            Op::WrLock => OpName::WrLock,
            Op::RwUnlock => OpName::RwUnlock,
            Op::RwInit => OpName::RwInit,
            Op::Take => OpName::Take,
            Op::Retake => OpName::Retake,
            Op::Give => OpName::Give,
            Op::Revoke => OpName::Revoke,
            Op::Draw { .. } => OpName::Draw,
            Op::Start { .. } => OpName::Start,
            Op::Begin => OpName::Begin,
            Op::End => OpName::End,
            Op::Join => OpName::Join,
            Op::Close => OpName::Close,
            Op::Leave => OpName::Leave,
            Op::HaltAll => OpName::HaltAll,
            Op::TrapHere => OpName::TrapHere,
            Op::Stop => OpName::Stop,
            Op::GetChar { .. } => OpName::GetChar,
            Op::Print => OpName::Print,
        }
    }
}

impl OpName {
    /// The kind of the objects on which the operation is made.
    pub fn kind(self) -> ObjKind
        ensures { result ≡ kind_of self }
    {
        match self {
            OpName::Lock | OpName::TryLock | OpName::Unlock | OpName::MutexInit => ObjKind::Mutex,
            OpName::CondEnter | OpName::CondWake | OpName::Signal => ObjKind::Cond,
            OpName::BarrierInit | OpName::Arrive | OpName::Pass => ObjKind::Barrier,
            OpName::RdLock | OpName::WrLock | OpName::RwUnlock | OpName::RwInit => ObjKind::Rw,
            OpName::Take | OpName::Retake | OpName::Give | OpName::Revoke => ObjKind::Weak,
            OpName::Start | OpName::Begin | OpName::End | OpName::Join | OpName::Close =>
                ObjKind::Slot,
            OpName::Draw | OpName::Leave => ObjKind::Threads,
            OpName::HaltAll | OpName::TrapHere | OpName::Stop => ObjKind::Halt,
            OpName::GetChar => ObjKind::Input,
            OpName::Print => ObjKind::Output,
        }
    }

    /// Whether a thread ends with an entry of this name.
    pub fn is_ending(self) -> bool
        ensures { result ≡ is_ending self }
    {
        matches!(
            self,
            OpName::End
                | OpName::Leave
                | OpName::HaltAll
                | OpName::TrapHere
                | OpName::Stop
                | OpName::Close
        )
    }

    /// Whether the operation is one on a stripe of a weak lock, which no program asks for itself.
    pub fn is_weak(self) -> bool
        ensures { result ≡ is_weak self }
    {
        matches!(
            self,
            OpName::Take | OpName::Retake | OpName::Give | OpName::Revoke
        )
    }
}

/// Whether the operation is one that is made on objects of this one's kind.
pub fn fits(op: OpName, obj: ObjId) -> bool
    ensures { IsTrue result ↔ Fits op obj }
{
    op.kind() == obj.kind()
}
