//! What is known of a code with its weak locks.
ghost use Rattle.std.specs.Prelude.{◌≡◌, true};
ghost use Rattle.flow_code.specs.Constants.{constants_fit};
ghost use Rattle.flow_code.specs.Settle.{IsRunnable};
ghost use Rattle.flow_code.specs.Valid.{is_valid};
ghost use Rattle.lock_sound.specs.Weakened.{Analysed, IsAnalysed};

/// The weakened code can be run.
pub fn law_weakened_runs()
    ensures { (a : Analysed) → IsAnalysed a → IsRunnable a.weak }
{}

/// The weakened code is valid.
pub fn law_weakened_is_valid()
    ensures { (a : Analysed) → IsAnalysed a → is_valid a.weak ≡ true }
{}

/// The constants of the weakened code fit their words.
#[tactic(auto, using(crate::proofs::Running::weakened_constants_fit))]
pub fn law_weakened_constants_fit()
    ensures { (a : Analysed) → IsAnalysed a → constants_fit a.weak ≡ true }
{}
