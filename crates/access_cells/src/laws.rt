//! Laws of what next actions name, over the definitions alone: their functions do nothing.

ghost use Rattle.std.specs.Prelude.{◌≡◌, ◌≢◌, ◌*◌, ◌<◌, ◌⊎◌, Bool, ℕ, false, true, List, Some, slice_get};
ghost use Rattle.sync_objects.specs.Setup.{SetupView, IsWithinLimits};
ghost use Rattle.sync_objects.specs.declared.object.ObjId.{ObjId};
ghost use Rattle.sync_objects.specs.declared.operation.Op.{Op};
ghost use Rattle.word_semantics.specs.declared.event.Action.TheVariants.{Ended, Operate};
ghost use Rattle.flow_code.specs.declared.code.Code.{Code};
ghost use Rattle.flow_code.specs.Constants.{constants_fit};
ghost use Rattle.flow_code.specs.Settle.{next, settled};
ghost use Rattle.flow_code.specs.Valid.{is_valid};
ghost use Rattle.core_run.specs.Histories.{IsReachable};
ghost use Rattle.core_run.specs.Machine.{Told, effect_of};
ghost use Rattle.core_run.specs.Words.{cells_of, has_object};
ghost use Rattle.run_theory.specs.Labels.{Go};
ghost use Rattle.run_theory.specs.Laws.{Conflict, access_of};
ghost use Rattle.run_theory.specs.Steps.{Refused, State};
ghost use Rattle.points_to_sound.specs.Objects.{Object};
ghost use Rattle.points_to_sound.specs.States.{PointsWell};
ghost use Rattle.access_cells.specs.Accesses.{names_cell, IsAccess, at_rest, Meet};

/// Law: in each state that can be reached, once all threads have made their quiet steps, there are objects with which all
/// pointers point well; and each cell that a thread's next action names is a hand-off cell, or the thread stands at an
/// instruction whose access is of this cell, to which its register points and may point.
pub fn law_access_cells()
    ensures { (code : Code) (setup : SetupView) (state : State Told) →
        is_valid code ≡ true →
        constants_fit code ≡ true →
        IsWithinLimits setup →
        IsReachable code setup state →
        (made : List Object) × PointsWell code setup made (at_rest code setup state) × ((t cell : ℕ) (store : Bool) (told : Told) →
        slice_get state.threads t ≡ Some told →
        names_cell (next code setup t told.thread) ≡ Some (cell, store) →
        (cell < 2 * setup.slots) ⊎ IsAccess code setup made (settled code setup t told.thread) cell store) }
{}

/// Law: the machine has each cell that a next action names, and the object of each operation that comes next. So it refuses a
/// thread's own step only where none comes next.
pub fn law_cells_are_there()
    ensures cells { (code : Code) (setup : SetupView) (state : State Told) (t cell : ℕ) (store : Bool) (told : Told) →
        is_valid code ≡ true →
        constants_fit code ≡ true →
        IsWithinLimits setup →
        IsReachable code setup state →
        slice_get state.threads t ≡ Some told →
        names_cell (next code setup t told.thread) ≡ Some (cell, store) →
        cell < cells_of code setup }
    ensures objects { (code : Code) (setup : SetupView) (state : State Told) (t : ℕ) (operation : Op) (object : ObjId) (told : Told) →
        is_valid code ≡ true →
        constants_fit code ≡ true →
        IsWithinLimits setup →
        IsReachable code setup state →
        slice_get state.threads t ≡ Some told →
        next code setup t told.thread ≡ Operate operation object →
        has_object code setup object ≡ true }
    ensures refused { (code : Code) (setup : SetupView) (state : State Told) (t : ℕ) (told : Told) →
        is_valid code ≡ true →
        constants_fit code ≡ true →
        IsWithinLimits setup →
        IsReachable code setup state →
        slice_get state.threads t ≡ Some told →
        effect_of code setup (Go t) told ≡ Refused →
        next code setup t told.thread ≡ Ended }
{}

/// Law: where the next actions of two threads are accesses of one hand-off cell, both are loads.
pub fn law_hand_offs_apart()
    ensures { (code : Code) (setup : SetupView) (state : State Told) (t u cell : ℕ) (first second : Bool) (told other : Told) →
        is_valid code ≡ true →
        constants_fit code ≡ true →
        IsWithinLimits setup →
        IsReachable code setup state →
        t ≢ u →
        slice_get state.threads t ≡ Some told →
        slice_get state.threads u ≡ Some other →
        names_cell (next code setup t told.thread) ≡ Some (cell, first) →
        names_cell (next code setup u other.thread) ≡ Some (cell, second) →
        cell < 2 * setup.slots →
        (first ≡ false) × (second ≡ false) }
{}

/// Law: where the next actions of two threads conflict, both stand at instructions with accesses of one cell of one object,
/// one of which stores, and the registers of both may point to the cell's place.
pub fn law_conflict_cells()
    ensures { (code : Code) (setup : SetupView) (state : State Told) (t u : ℕ) (told other : Told) →
        is_valid code ≡ true →
        constants_fit code ≡ true →
        IsWithinLimits setup →
        IsReachable code setup state →
        t ≢ u →
        slice_get state.threads t ≡ Some told →
        slice_get state.threads u ≡ Some other →
        Conflict (access_of (effect_of code setup (Go t) told)) (access_of (effect_of code setup (Go u) other)) →
        Meet code setup state (settled code setup t told.thread) (settled code setup u other.thread) }
{}
