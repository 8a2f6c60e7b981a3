// How long a thread rests whose job comes no further.
use std::thread;
use std::time::{Clock, Duration};

/// So many turns in vain on end only let other threads run.
const EAGER_TURNS: u32 = 64;

/// The first sleep, in microseconds.
const FIRST_SLEEP: u64 = 20;

/// How often the first sleep is doubled: the longest takes 640 microseconds.
const DOUBLINGS: u32 = 5;

/// Rests after so many turns in vain on end: not at all after none, and longer each time after many. It changes nothing of the job.
pub(crate) fn rest(rt: &impl Clock, turns_in_vain: u32) {
    if turns_in_vain == 0 {
        return;
    }
    if turns_in_vain <= EAGER_TURNS {
        thread::yield_now();
        return;
    }
    let doublings = (turns_in_vain - EAGER_TURNS - 1).min(DOUBLINGS);
    thread::sleep(rt, Duration::from_micros(FIRST_SLEEP << doublings));
}
