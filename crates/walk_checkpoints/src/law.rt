// One checkpoint after so many entries of a log, and one rest from it.

ghost use Rattle.walk_checkpoints.specs.Telling.{OneCheckpoint, OneRest};

/// The first entries of a list lead to one checkpoint on a code.
pub fn law_one_checkpoint()
    ensures { OneCheckpoint }
{}

/// The bytes of a checkpoint and a list of entries have one answer on a code.
pub fn law_one_rest()
    ensures { OneRest }
{}
