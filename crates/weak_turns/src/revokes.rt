// Revokes: which stripe is to be taken from its thread.
ghost use Rattle.std.specs.Prelude.{◌≡◌, ◌*◌, ◌<◌, length};
ghost use Rattle.shared_cells.specs.Seats.{IsSeatOf};
ghost use Rattle.weak_turns.specs.Finding.{Chooses, FindsRevoke, HeldIs, IsAlike, comes_first};
ghost use Rattle.weak_turns.specs.Turns.{thread_of};

use flow_code::Stripe;
use shared_cells::{Cells, Seat};
use thread_step::ThreadRun;

/// A thread with so many entries, or so many revokes among them, isn't revoked any more.
const MOST_ENTRIES: u32 = 1 << 20;

const MOST_REVOKES: u32 = 1 << 14;

/// A stripe of a lock.
#[derive(Clone, Copy)]
pub struct LockStripe {
    pub lock: u16,
    pub stripe: u8,
}

// The stripe, if the thread holds it, it is of one of the code's locks, and was taken at least `budget` turns ago.
fn held_long(since: &[u64], budget: u32, turn: u64, item: Stripe) -> Option<LockStripe>
    ensures { HeldIs item since.now budget turn result }
{
    let Stripe { lock, stripe, owed } = item;
    let number = 8 * usize::from(lock) + usize::from(stripe);
    if owed || stripe > 7 || number >= since.len() {
        return None;
    }
    if turn.saturating_sub(since[number]) < u64::from(budget) {
        return None;
    }
    Some(LockStripe { lock, stripe })
}

// Whether the stripe comes before another one, in the order of locks and of the stripes of one lock.
fn comes_before(place: LockStripe, other: Option<LockStripe>) -> bool
    ensures { result ≡ comes_first place other }
{
    match other {
        Some(other) => {
            8 * u32::from(place.lock) + u32::from(place.stripe)
                < 8 * u32::from(other.lock) + u32::from(other.stripe)
        }
        None => true,
    }
}

// The stripe, if it comes before the one that was found so far and is wanted; else the one that was found.
fn earlier_wanted(
    cells: &Cells,
    seat: &mut Seat,
    place: LockStripe,
    due: Option<LockStripe>,
) -> Option<LockStripe>
    requires seat { IsSeatOf cells.now seat.old }
    requires lock { place.lock < length cells.now.code.locks }
    requires stripe { place.stripe < 8 }
    ensures seat { IsSeatOf cells.now seat.new }
    ensures chosen { Chooses cells.now seat.old seat.new place due result }
{
    if !comes_before(place, due) {
        return due;
    }
    if cells.wanted(seat, place.lock, place.stripe) {
        Some(place)
    } else {
        due
    }
}

/// The first stripe that the thread has held for so many turns and that is wanted, if there is one and the thread has room for a
/// revoke. It looks at what the thread holds, however many locks the code has.
pub(crate) fn revoke_due(
    cells: &Cells,
    seat: &mut Seat,
    run: &ThreadRun,
    since: &[u64],
    budget: u32,
    turn: u64,
) -> Option<LockStripe>
    requires seat { IsSeatOf cells.now seat.old }
    requires stripes { length since.now ≡ 8 * length cells.now.code.locks }
    requires alike { IsAlike run.now (thread_of seat.old) }
    ensures seat { IsSeatOf cells.now seat.new }
    ensures finds { FindsRevoke cells.now seat.old seat.new since.now budget turn result }
{
    if run.entries() >= MOST_ENTRIES || run.revokes() >= MOST_REVOKES {
        return None;
    }
    let mut due = None;
    for item in run.stripes() {
        let Some(place) = held_long(since, budget, turn, *item) else {
            continue;
        };
        due = earlier_wanted(cells, seat, place, due);
    }
    due
}
