//! Laws of the frames of threads of reached states, over the definitions alone: their functions do nothing.
ghost use Rattle.std.specs.Prelude.{◌≡◌, ℕ, true, Some, is_some, slice_get};
ghost use Rattle.sync_objects.specs.Setup.{SetupView, IsWithinLimits};
ghost use Rattle.word_semantics.specs.declared.event.Action.TheVariants as action;
ghost use Rattle.flow_code.specs.declared.code.Code.{Code};
ghost use Rattle.flow_code.specs.declared.thread.Phase.TheVariants as phase;
ghost use Rattle.flow_code.specs.Next.{has_ended};
ghost use Rattle.flow_code.specs.Settle.{next, settled};
ghost use Rattle.flow_code.specs.Threads.{instr_at};
ghost use Rattle.flow_code.specs.Valid.{is_valid};
ghost use Rattle.core_run.specs.Histories.{IsReachable};
ghost use Rattle.core_run.specs.Machine.{Told};
ghost use Rattle.run_theory.specs.Steps.{State};

/// Law: a thread that runs stands at an instruction of its function, now and after its quiet steps.
pub fn law_stands_at_instruction()
    ensures now { (code : Code) (setup : SetupView) (state : State Told) (t : ℕ) (told : Told) →
        is_valid code ≡ true →
        IsWithinLimits setup →
        IsReachable code setup state →
        slice_get state.threads t ≡ Some told →
        told.thread.phase ≡ phase.Running →
        is_some (instr_at code told.thread.top) ≡ true }
    ensures settled { (code : Code) (setup : SetupView) (state : State Told) (t : ℕ) (told : Told) →
        is_valid code ≡ true →
        IsWithinLimits setup →
        IsReachable code setup state →
        slice_get state.threads t ≡ Some told →
        told.thread.phase ≡ phase.Running →
        is_some (instr_at code (settled code setup t told.thread).top) ≡ true }
{}

/// Law: a thread to which no step comes has ended.
pub fn law_ended_at_last()
    ensures { (code : Code) (setup : SetupView) (state : State Told) (t : ℕ) (told : Told) →
        is_valid code ≡ true →
        IsWithinLimits setup →
        IsReachable code setup state →
        slice_get state.threads t ≡ Some told →
        next code setup t told.thread ≡ action.Ended →
        has_ended told.thread.phase ≡ true }
{}
