//! That a thread's steps are the machine's.
ghost use Rattle.std.specs.Prelude.{◌≡◌, ℕ, ℤ, true};
ghost use Rattle.sync_objects.specs.Setup.{SetupView};
ghost use Rattle.sync_objects.specs.Advance.{advanced, Advances};
ghost use Rattle.sync_objects.specs.declared.object.ObjId.{ObjId};
ghost use Rattle.sync_objects.specs.declared.operation.Op.{Op};
ghost use Rattle.word_semantics.specs.declared.event.Action.TheVariants as action;
ghost use Rattle.flow_code.specs.declared.code.Code.{Code};
ghost use Rattle.flow_code.specs.Next.{action_at};
ghost use Rattle.flow_code.specs.Settle.{settled};
ghost use Rattle.core_run.specs.Machine.{Told};
ghost use Rattle.core_run.specs.Words.{has_object};
ghost use Rattle.thread_step.specs.Steps.{IsMachinesStep};

/// An operation that a thread makes next, and that its object allows, leaves of the thread and its lists in the machine what
/// `take_answer` leaves, on the object's answer and the number of operations that it had.
pub fn law_operation()
    ensures { (code : Code) (s : SetupView) (t : ℕ) (told : Told) (o : Op) (obj : ObjId) (old new : ℕ) (answer : ℤ) →
        settled code s t told.thread ≡ told.thread →
        action_at code s t told.thread ≡ action.Operate o obj →
        has_object code s obj ≡ true →
        advanced o t old ≡ Advances new answer →
        IsMachinesStep code s t told o obj old new answer }
{}
