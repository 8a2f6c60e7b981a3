// What a recording leaves.

use core_run::Walk;
use rr_base::List;
use sync_objects::Entry;

/// What a recording leaves: the entries of its log, and what their walk comes to.
#[derive(Debug, Drop)]
pub struct Recorded {
    pub entries: List<Entry>,
    pub walk: Walk,
}
