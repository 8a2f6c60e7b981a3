//! Which mutexes, read-write locks and stripes of weak locks are held, and how threads are handed over, in every run of
//! the machine.
//!
//! Its contract: `law_mutex_held`, `law_rw_held`, `law_stripe_held`: what the law of order by a lock asks;
//! `law_open_regions`: a thread's stripes are those of its open regions; `law_started`, `law_ended`: what starts and
//! joins order.
//! It knows nothing of analyses, where regions come from.
#![tactic(auto)]

mod hand_offs;
mod laws;

pub use hand_offs::{law_ended, law_ordered_by_join, law_ordered_by_start, law_started};
pub use laws::{
    law_access_holds, law_mutex_held, law_mutex_holder, law_mutex_step, law_open_regions,
    law_ordered_by_mutex, law_ordered_by_rwlock, law_ordered_by_stripe, law_quiet_stripes,
    law_rw_exclusive, law_rw_held, law_stripe_held, law_stripe_named,
};
