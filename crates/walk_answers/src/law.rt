// One walk of a log.

ghost use Rattle.walk_answers.specs.Walking.{OneWalk};

/// A list of entries has one walk on a code: the same is told of it, and the same accesses are kept.
pub fn law_one_walk()
    ensures { OneWalk }
{}
