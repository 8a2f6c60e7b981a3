// The rest from a checkpoint repeats the whole walk.

ghost use Rattle.walk_checkpoints.specs.Repeats.{RestRepeats};

use checkpoint::{law_has_cells, law_rest};
use lock_sound::law_weakened_runs;
use race_free::law_cells;
use snapshot_reader::law_read_back;

/// What `told_rest` tells of the file that `taken_checkpoint` made of the same log on the same code: what the walk of the whole log
/// comes to, with what is printed after the first entries. The file is never refused.
pub fn law_rest_repeats()
    ensures { RestRepeats }
{
    law_weakened_runs();
    law_read_back();
    law_rest();
    law_cells();
    law_has_cells();
}
