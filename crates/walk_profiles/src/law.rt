// One profile of a log.

ghost use Rattle.walk_profiles.specs.Profiling.{OneProfile};

/// The walk of a list of entries on a code shows one profile.
pub fn law_one_profile()
    ensures { OneProfile }
{}
