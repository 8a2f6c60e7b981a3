//! Weakened code differs from plain code in its weak locks alone, and can be run as it can.
ghost use Rattle.std.specs.Prelude.{◌≡◌, true, List};
ghost use Rattle.flow_code.specs.declared.code.Code.{Code};
ghost use Rattle.flow_code.specs.Settle.{IsRunnable};
ghost use Rattle.flow_code.specs.Valid.{is_valid};
ghost use Rattle.facts.specs.declared.pair.Pair.{Pair};
ghost use Rattle.facts.specs.PointsTo.{Tables};
ghost use Rattle.weak_lock_facts.specs.declared.grain.Grained.{Grained};
ghost use Rattle.weak_lock_facts.specs.declared.range.Range.{Range};
ghost use Rattle.weak_code.specs.Weakened.{weakened};
ghost use Rattle.weak_code.specs.Stripped.{strip, is_plain};

/// A valid code without weak locks comes back from the weakened code, if that is stripped of them.
pub fn law_weakened_code_strips()
    ensures { (code : Code) (t : Tables) (vs : List Pair) (rs : List Range) (rows : List Grained) → is_valid code ≡ true → is_plain code ≡ true → strip (weakened code t vs rs rows) ≡ code }
{}

/// The weakened code of a code that can be run can be run.
pub fn law_weakened_code_runs()
    ensures { (code : Code) (t : Tables) (vs : List Pair) (rs : List Range) (rows : List Grained) → IsRunnable code → IsRunnable (weakened code t vs rs rows) }
{}
