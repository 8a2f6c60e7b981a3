// One answer for two points of a log.

ghost use Rattle.walk_chains.specs.Telling.{OneChain};

/// The walk of a list of entries on a code that can run has one answer for two points.
pub fn law_one_chain()
    ensures { OneChain }
{}
