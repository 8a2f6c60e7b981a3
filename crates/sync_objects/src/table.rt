ghost use Rattle.std.specs.Prelude.{◌≡◌, ◌-◌, ◌<◌, ◌^◌, MatchOption, IfSome};
ghost use Rattle.sync_objects.specs.Advance.{advanced, NotAllowed, Advances};
ghost use Rattle.sync_objects.specs.Moved.{moved, Gives};
ghost use Rattle.sync_objects.specs.Names.{name_of, kind_of};
ghost use Rattle.sync_objects.specs.Sound.{IsSoundWord, IsInRange};
ghost use Rattle.sync_objects.specs.Words.{number_of, state_of};

use crate::operation::Op;
use crate::rows::moved::Moved;
use crate::rows::{barrier, condition, halt, input, lock, rwlock, slot, threads};
use crate::word;

/// What the operation by this thread makes of the word of its object, with its answer, or None exactly where the
/// table doesn't allow it there. The word is one that an object of the operation's kind can have, and so is the
/// new word.
#[tactic(auto, using(crate::proofs::Packed::advancing))]
pub fn advance(op: Op, thread: u8, word: u64) -> Option<(u64, i64)>
    requires thread { thread < 16 }
    requires range { IsInRange op }
    requires number { number_of word < 2 ^ 32 - 1 }
    requires sound { IsSoundWord (kind_of (name_of op)) word }
    ensures table { MatchOption result
        (advanced op thread word ≡ NotAllowed)
        (λ next. advanced op thread word ≡ Advances next.0 next.1) }
    ensures sound { IfSome result (λ next. IsSoundWord (kind_of (name_of op)) next.0) }
{
    let moved = moved(op, thread, word)?;
    let next = word::word_of(word::number_of(word) + 1, moved.state);
    Some((next, moved.answer))
}

fn moved(op: Op, thread: u8, word: u64) -> Option<Moved>
    requires thread { thread < 16 }
    requires range { IsInRange op }
    requires number { number_of word < 2 ^ 32 - 1 }
    requires sound { IsSoundWord (kind_of (name_of op)) word }
    ensures { Gives (moved op thread (state_of word)) result }
{
    let state = word::state_of(word);
    match op {
        Op::Lock => lock::lock(thread, state),
        Op::TryLock => Some(lock::try_lock(thread, state)),
        Op::Unlock => Some(lock::unlock(thread, state)),
        Op::MutexInit => Some(lock::init(state)),
        Op::CondEnter => Some(condition::enter(state)),
        Op::CondWake { epoch } => condition::wake(epoch, state),
        Op::Signal => Some(condition::signal(state)),
        Op::BarrierInit { count } => Some(barrier::init(count, state)),
        Op::Arrive => Some(barrier::arrive(state)),
        Op::Pass { generation } => barrier::pass(generation, state),
        Op::RdLock => rwlock::read_lock(thread, state),
        Op::WrLock => rwlock::write_lock(thread, state),
        Op::RwUnlock => Some(rwlock::unlock(thread, state)),
        Op::RwInit => Some(rwlock::init(state)),
        Op::Take | Op::Retake => lock::take(thread, state),
        Op::Give | Op::Revoke => lock::give(thread, state),
        Op::Draw { slots } => threads::draw(slots, state),
        Op::Leave => threads::leave(state),
        Op::Start { function } => slot::start(function, state),
        Op::Begin => slot::begin(state),
        Op::End => slot::end(state),
        Op::Join => slot::join(state),
        Op::Close => slot::close(state),
        Op::HaltAll => halt::halt(state),
        Op::TrapHere => halt::trap(state),
        Op::Stop => halt::stop(state),
        Op::GetChar { len } => Some(input::get_char(len, state)),
        Op::Print => Some(input::print(state)),
    }
}

#[cfg(test)]
mod tests {
    use super::*;
    use crate::word::word_of;

    #[test]
    fn rows(rt: HostRuntime) {
        // the one thread of a barrier: count 1 in generation 0, then in generation 1
        let alone = advance(Op::Arrive, 0, word_of(1, 1));
        assert_eq!(rt; alone, Some((word_of(2, 1 + 1024), -1)));
        // a mutex that thread 3 holds: by itself, and by thread 2
        let again = advance(Op::Lock, 3, word_of(1, 4));
        assert_eq!(rt; again, Some((word_of(2, 4), -2)));
        let tried = advance(Op::TryLock, 2, word_of(1, 4));
        assert_eq!(rt; tried, Some((word_of(2, 4), 16)));
        // a read-write lock that thread 3 reads: with thread 5, once more by thread 3, and by a writer
        let both = advance(Op::RdLock, 5, word_of(1, 8));
        assert_eq!(rt; both, Some((word_of(2, 8 + 32), 0)));
        assert_eq!(rt;
            advance(Op::RdLock, 3, word_of(1, 8)),
            Some((word_of(2, 8), -2))
        );
        assert_eq!(rt; advance(Op::WrLock, 5, word_of(1, 8)), None);
        // two slots, two threads drawn, one of them live
        let drawn = advance(Op::Draw { slots: 2 }, 0, word_of(5, 2 + 32));
        assert_eq!(rt; drawn, Some((word_of(6, 2 + 32), 0)));
        // a closed slot is shut, and never joined
        let shut = advance(Op::Start { function: 7 }, 0, word_of(1, 1));
        assert_eq!(rt; shut, Some((word_of(2, 5), 0)));
        assert_eq!(rt; advance(Op::Join, 0, word_of(2, 5)), None);
        // two bytes of input, both read
        let ended = advance(Op::GetChar { len: 2 }, 0, word_of(9, 2));
        assert_eq!(rt; ended, Some((word_of(10, 2), 2)));
    }
}
