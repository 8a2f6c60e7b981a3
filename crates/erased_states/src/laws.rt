//! The laws of states without weak locks.
ghost use Rattle.std.specs.Prelude.{◌≡◌, ℕ, true, Some, slice_get};
ghost use Rattle.sync_objects.specs.Setup.{SetupView, IsWithinLimits};
ghost use Rattle.word_semantics.specs.declared.event.Action.{Action};
ghost use Rattle.flow_code.specs.declared.code.Code.{Code};
ghost use Rattle.flow_code.specs.Settle.{IsRunnable, next};
ghost use Rattle.flow_code.specs.Valid.{is_valid};
ghost use Rattle.weak_code.specs.Stripped.{strip};
ghost use Rattle.core_run.specs.Histories.{IsReachable};
ghost use Rattle.core_run.specs.Machine.{Told};
ghost use Rattle.run_theory.specs.Steps.{State};
ghost use Rattle.erased_states.specs.States.{IsPlainState, IsAccess, IsPlainAccess};

/// Each state that a valid code reaches is, without its weak locks, a state that the code without them reaches.
pub fn law_plain_state()
    ensures { (code plain : Code) (setup : SetupView) (state : State Told) →
        IsWithinLimits setup →
        is_valid code ≡ true →
        strip code ≡ plain →
        IsReachable code setup state →
        (bare : State Told) × IsReachable plain setup bare × IsPlainState code plain setup state bare }
{}

/// Where a thread comes next to a load or a store in a state that is reached, the plain code's thread comes to the same one in
/// each state that is this one without its weak locks. After their quiet steps they differ in weak locks alone.
pub fn law_plain_access()
    ensures { (code plain : Code) (setup : SetupView) (state bare : State Told) (t : ℕ) (told : Told) (a : Action) →
        IsWithinLimits setup →
        is_valid code ≡ true →
        strip code ≡ plain →
        IsReachable code setup state →
        IsPlainState code plain setup state bare →
        slice_get state.threads t ≡ Some told →
        IsAccess a →
        next code setup t told.thread ≡ a →
        (x : Told) × (slice_get bare.threads t ≡ Some x) × IsPlainAccess code plain setup t told.thread x.thread a }
{}

/// A code that can be run can be run without its weak locks.
pub fn law_plain_code_runs()
    ensures { (code : Code) → IsRunnable code → IsRunnable (strip code) }
{}
