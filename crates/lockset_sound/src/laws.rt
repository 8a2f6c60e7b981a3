//! Laws of the locks that threads hold, over the definitions alone: their functions do nothing.

ghost use Rattle.std.specs.Prelude.{◌≡◌, ◌≢◌, ◌||◌, ℕ, true, List, length, reverse, Some, Ok, slice_get};
ghost use Rattle.std.specs.List.{Contains};
ghost use Rattle.rr_base.specs.declared.layout.Place.{Place};
ghost use Rattle.rr_base.specs.declared.layout.CellKind.{CellKind};
ghost use Rattle.sync_objects.specs.Modes.{excludes};
ghost use Rattle.sync_objects.specs.Setup.{SetupView, IsWithinLimits};
ghost use Rattle.sync_objects.specs.declared.mode.Mode.{Mode};
ghost use Rattle.word_semantics.specs.Pointers.{resolved};
ghost use Rattle.word_semantics.specs.Registers.{register};
ghost use Rattle.flow_code.specs.declared.code.Code.{Code};
ghost use Rattle.flow_code.specs.declared.code.Function.{Function};
ghost use Rattle.flow_code.specs.declared.act.Instr.{Instr};
ghost use Rattle.flow_code.specs.declared.thread.Phase.TheVariants.{Running};
ghost use Rattle.flow_code.specs.Constants.{constants_fit};
ghost use Rattle.flow_code.specs.Settle.{settled};
ghost use Rattle.flow_code.specs.Threads.{Thread};
ghost use Rattle.flow_code.specs.Valid.{is_valid};
ghost use Rattle.facts.specs.Accesses.{Access, access_of};
ghost use Rattle.facts.specs.Locks.{Points};
ghost use Rattle.facts.specs.Pairs.{is_root, may_meet, places_of, MayRace};
ghost use Rattle.facts.specs.Paths.{naming_at};
ghost use Rattle.facts.specs.PointsTo.{Tables};
ghost use Rattle.facts.specs.Summaries.{AreSolution, AreSummaries, StandsAt};
ghost use Rattle.facts.specs.declared.locks.Held.{Held};
ghost use Rattle.facts.specs.declared.locks.LockPath.{LockPath};
ghost use Rattle.facts.specs.declared.locks.LockPath.TheVariants.{Cell};
ghost use Rattle.facts.specs.declared.locks.Naming.TheVariants.{Named};
ghost use Rattle.facts.specs.declared.locks.Summary.{Summary};
ghost use Rattle.core_run.specs.Histories.{IsReachable};
ghost use Rattle.core_run.specs.Machine.{Told};
ghost use Rattle.run_theory.specs.Steps.{State};
ghost use Rattle.lockset_sound.specs.Frames.{holds_at, IsGuarded, IsListed, root_frame, ThreadStack};
ghost use Rattle.lockset_sound.specs.Leading.{LeadsTo};

/// Law: where the running frame of a thread stands, now or after its quiet steps, a register that has a name in its function
/// resolves to the cell to which the name leads, of the kind that is asked for.
pub fn law_named()
    ensures now { (code : Code) (setup : SetupView) (state : State Told) (t : ℕ) (told : Told) (f : Function) (r cell : ℕ) (kind : CellKind) (p : LockPath) →
        is_valid code ≡ true →
        constants_fit code ≡ true →
        IsWithinLimits setup →
        IsReachable code setup state →
        slice_get state.threads t ≡ Some told →
        told.thread.phase ≡ Running →
        slice_get code.functions told.thread.top.function ≡ Some f →
        naming_at f told.thread.top.instr r ≡ Named p →
        resolved code.sites (register told.thread.top.registers r) kind ≡ Ok cell →
        LeadsTo code setup.slots f told.thread.top.registers p kind cell }
    ensures settled { (code : Code) (setup : SetupView) (state : State Told) (t : ℕ) (told : Told) (f : Function) (r cell : ℕ) (kind : CellKind) (p : LockPath) →
        is_valid code ≡ true →
        constants_fit code ≡ true →
        IsWithinLimits setup →
        IsReachable code setup state →
        slice_get state.threads t ≡ Some told →
        told.thread.phase ≡ Running →
        slice_get code.functions (settled code setup t told.thread).top.function ≡ Some f →
        naming_at f (settled code setup t told.thread).top.instr r ≡ Named p →
        resolved code.sites (register (settled code setup t told.thread).top.registers r) kind ≡ Ok cell →
        LeadsTo code setup.slots f (settled code setup t told.thread).top.registers p kind cell }
{}

/// Law: in each state that can be reached the locks that a solution gives for the points of a thread's frames mean what
/// they say: those of the running frame by the locks that the thread holds now, those of each other frame by the ones
/// that it held as it entered the frame above. So they do after its quiet steps, by which it comes to its next action.
pub fn law_locks_mean()
    ensures now { (code : Code) (setup : SetupView) (tops : List (List Held)) (points : List Points) (state : State Told) (t : ℕ) (told : Told) →
        is_valid code ≡ true →
        constants_fit code ≡ true →
        IsWithinLimits setup →
        AreSolution code tops points →
        length tops ≡ length code.functions →
        IsReachable code setup state →
        slice_get state.threads t ≡ Some told →
        told.thread.phase ≡ Running →
        ThreadStack code setup.slots points (holds_at code setup t state) told.thread }
    ensures settled { (code : Code) (setup : SetupView) (tops : List (List Held)) (points : List Points) (state : State Told) (t : ℕ) (told : Told) →
        is_valid code ≡ true →
        constants_fit code ≡ true →
        IsWithinLimits setup →
        AreSolution code tops points →
        length tops ≡ length code.functions →
        IsReachable code setup state →
        slice_get state.threads t ≡ Some told →
        told.thread.phase ≡ Running →
        ThreadStack code setup.slots points (holds_at code setup t state) (settled code setup t told.thread) }
{}

/// Law: where a thread's next action is one of an instruction that makes an access, the access is one of those that the
/// analysis has for the function of its outermost frame, and the thread holds each global lock of it.
pub fn law_guarded()
    ensures guarded { (code : Code) (setup : SetupView) (tops : List (List Held)) (points : List Points) (state : State Told) (t : ℕ) (told : Told) (th : Thread) (f : Function) (i : Instr) (a : Access) →
        is_valid code ≡ true →
        constants_fit code ≡ true →
        IsWithinLimits setup →
        AreSolution code tops points →
        length tops ≡ length code.functions →
        IsReachable code setup state →
        slice_get state.threads t ≡ Some told →
        told.thread.phase ≡ Running →
        th ≡ settled code setup t told.thread →
        StandsAt code th.top.function th.top.instr f i →
        access_of i.act ≡ Some a →
        IsGuarded code setup.slots points (holds_at code setup t state) th.top (reverse th.below) a.store }
    ensures listed { (code : Code) (setup : SetupView) (summaries : List Summary) (state : State Told) (t : ℕ) (told : Told) (th : Thread) (f : Function) (i : Instr) (a : Access) →
        is_valid code ≡ true →
        constants_fit code ≡ true →
        IsWithinLimits setup →
        AreSummaries code summaries →
        IsReachable code setup state →
        slice_get state.threads t ≡ Some told →
        told.thread.phase ≡ Running →
        th ≡ settled code setup t told.thread →
        StandsAt code th.top.function th.top.instr f i →
        access_of i.act ≡ Some a →
        IsListed code setup.slots summaries (holds_at code setup t state) th.top (reverse th.below) a.store }
{}

/// Law: no lock is held by two threads at once in modes that exclude each other: only readers share it.
pub fn law_one_holds()
    ensures { (code : Code) (setup : SetupView) (state : State Told) (first second : Mode) (kind : CellKind) (t u cell : ℕ) →
        is_valid code ≡ true →
        IsWithinLimits setup →
        IsReachable code setup state →
        excludes first second ≡ true →
        holds_at code setup t state first kind cell ≡ true →
        holds_at code setup u state second kind cell ≡ true →
        t ≡ u }
{}

/// Law: the outermost frame of a thread is of a function with which one may begin, and those of two threads of two with which
/// they may have begun at once: thread 0 alone runs `main`.
pub fn law_roots()
    ensures root { (code : Code) (setup : SetupView) (state : State Told) (t : ℕ) (told : Told) (th : Thread) →
        is_valid code ≡ true →
        IsWithinLimits setup →
        IsReachable code setup state →
        slice_get state.threads t ≡ Some told →
        told.thread.phase ≡ Running →
        th ≡ settled code setup t told.thread →
        is_root code (root_frame th.top (reverse th.below)).function ≡ true }
    ensures meet { (code : Code) (setup : SetupView) (state : State Told) (t u : ℕ) (told other : Told) (th uh : Thread) →
        is_valid code ≡ true →
        IsWithinLimits setup →
        IsReachable code setup state →
        t ≢ u →
        slice_get state.threads t ≡ Some told →
        slice_get state.threads u ≡ Some other →
        told.thread.phase ≡ Running →
        other.thread.phase ≡ Running →
        th ≡ settled code setup t told.thread →
        uh ≡ settled code setup u other.thread →
        may_meet code (root_frame th.top (reverse th.below)).function (root_frame uh.top (reverse uh.below)).function ≡ true }
{}

/// Law: where two threads are next to access one place, one of them by a store, the two accesses may race there as the
/// analysis has it, by any tables of where pointers point.
pub fn law_may_race()
    ensures { (code : Code) (setup : SetupView) (tables : Tables) (summaries : List Summary) (state : State Told) (t u : ℕ) (told other : Told) (th uh : Thread) (f g : Function) (i j : Instr) (a b : Access) (place : Place) →
        is_valid code ≡ true →
        constants_fit code ≡ true →
        IsWithinLimits setup →
        AreSummaries code summaries →
        IsReachable code setup state →
        t ≢ u →
        slice_get state.threads t ≡ Some told →
        slice_get state.threads u ≡ Some other →
        told.thread.phase ≡ Running →
        other.thread.phase ≡ Running →
        th ≡ settled code setup t told.thread →
        uh ≡ settled code setup u other.thread →
        StandsAt code th.top.function th.top.instr f i →
        StandsAt code uh.top.function uh.top.instr g j →
        access_of i.act ≡ Some a →
        access_of j.act ≡ Some b →
        (a.store || b.store) ≡ true →
        Contains (places_of code tables (record { function = th.top.function; instr = th.top.instr })) place →
        Contains (places_of code tables (record { function = uh.top.function; instr = uh.top.instr })) place →
        MayRace code tables summaries place (record { function = th.top.function; instr = th.top.instr }) (record { function = uh.top.function; instr = uh.top.instr }) }
{}
