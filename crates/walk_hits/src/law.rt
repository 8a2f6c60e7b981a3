// One answer to a formula on a log.

ghost use Rattle.walk_hits.specs.Telling.{OneHit};

/// The walk of a list of entries on a code has one answer to a formula.
pub fn law_one_hit()
    ensures { OneHit }
{}
