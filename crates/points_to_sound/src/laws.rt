//! Laws of what pointers point to, over the definitions alone: their functions do nothing.

ghost use Rattle.std.specs.Prelude.{◌≡◌, ◌<◌, ℕ, true, List, Some, slice_get};
ghost use Rattle.sync_objects.specs.Setup.{SetupView, IsWithinLimits};
ghost use Rattle.flow_code.specs.declared.code.Code.{Code};
ghost use Rattle.word_semantics.specs.Cells.{access_kind};
ghost use Rattle.word_semantics.specs.declared.event.Action.TheVariants.{Load, Store};
ghost use Rattle.flow_code.specs.Constants.{constants_fit};
ghost use Rattle.flow_code.specs.declared.act.Act.TheVariants.{LoadCell, StoreCell};
ghost use Rattle.flow_code.specs.declared.thread.Phase.TheVariants.{Running};
ghost use Rattle.flow_code.specs.Next.{act_at, pointers_of};
ghost use Rattle.flow_code.specs.Settle.{IsRunnable, next, settled};
ghost use Rattle.flow_code.specs.Works.{is_pointer};
ghost use Rattle.flow_code.specs.Valid.{is_valid};
ghost use Rattle.core_run.specs.Histories.{IsReachable};
ghost use Rattle.core_run.specs.Machine.{Told};
ghost use Rattle.core_run.specs.Words.{cells_of};
ghost use Rattle.facts.specs.declared.constraint.Node.TheVariants.{Register};
ghost use Rattle.run_theory.specs.Steps.{State};
ghost use Rattle.points_to_sound.specs.Creations.{HandsOver};
ghost use Rattle.points_to_sound.specs.Objects.{Object};
ghost use Rattle.points_to_sound.specs.Pointing.{Reaches};
ghost use Rattle.points_to_sound.specs.States.{PointsWell};

/// Law: in each state that can be reached the threads that are being created have slots of their own, each drawn and
/// not yet started; a slot is started only once its number is drawn, and a thread begins only once its slot is started.
pub fn law_drawn_once()
    ensures { (code : Code) (setup : SetupView) (state : State Told) →
        IsRunnable code →
        IsWithinLimits setup →
        IsReachable code setup state →
        HandsOver code setup state }
{}

/// Law: in each state that can be reached, with some objects that threads have made, objects lie apart, and each pointer
/// in a register or a pointer cell has the base and length of an object of its site and a place of the least sets; so
/// has each argument from when it is handed over until its thread has it, and each result for what joins store.
pub fn law_points_well()
    ensures { (code : Code) (setup : SetupView) (state : State Told) →
        is_valid code ≡ true →
        constants_fit code ≡ true →
        IsWithinLimits setup →
        IsReachable code setup state →
        (made : List Object) × PointsWell code setup made state }
{}

/// Law: where a load or a store through a register comes next, its cell is one of the setup's and of an object, of the
/// kind of the other register, at a place to which the register may point.
pub fn law_cells()
    ensures load { (code : Code) (setup : SetupView) (state : State Told) (t into through cell : ℕ) (told : Told) →
        is_valid code ≡ true →
        constants_fit code ≡ true →
        IsWithinLimits setup →
        IsReachable code setup state →
        slice_get state.threads t ≡ Some told →
        (settled code setup t told.thread).phase ≡ Running →
        act_at code (settled code setup t told.thread).top ≡ Some (LoadCell into through) →
        next code setup t told.thread ≡ Load cell →
        (cell < cells_of code setup) × (made : List Object) × Reaches code setup made (Register (settled code setup t told.thread).top.function through) cell (access_kind (is_pointer (pointers_of code (settled code setup t told.thread).top) into)) }
    ensures store { (code : Code) (setup : SetupView) (state : State Told) (t from through cell value : ℕ) (told : Told) →
        is_valid code ≡ true →
        constants_fit code ≡ true →
        IsWithinLimits setup →
        IsReachable code setup state →
        slice_get state.threads t ≡ Some told →
        (settled code setup t told.thread).phase ≡ Running →
        act_at code (settled code setup t told.thread).top ≡ Some (StoreCell through from) →
        next code setup t told.thread ≡ Store cell value →
        (cell < cells_of code setup) × (made : List Object) × Reaches code setup made (Register (settled code setup t told.thread).top.function through) cell (access_kind (is_pointer (pointers_of code (settled code setup t told.thread).top) from)) }
{}
