//! Laws of the machine's locks, over the definitions alone: their functions do nothing.

ghost use Rattle.std.specs.Prelude.{◌≡◌, ◌≢◌, ◌<◌, ◌+◌, ◌*◌, ℕ, true, false, List, Some, slice_get};
ghost use Rattle.sync_objects.specs.Setup.{SetupView, IsWithinLimits};
ghost use Rattle.sync_objects.specs.Modes.{excludes};
ghost use Rattle.sync_objects.specs.States.{Free};
ghost use Rattle.sync_objects.specs.declared.mode.Mode.{Mode};
ghost use Rattle.sync_objects.specs.declared.object.ObjId.TheVariants.{Mutex, Rw, Weak};
ghost use Rattle.flow_code.specs.declared.code.Code.{Code};
ghost use Rattle.flow_code.specs.Holding.{nesting};
ghost use Rattle.flow_code.specs.Next.{holds};
ghost use Rattle.flow_code.specs.Settle.{IsRunnable, next, settled};
ghost use Rattle.core_run.specs.Histories.{run_of, IsReachable};
ghost use Rattle.core_run.specs.Machine.{Told, machine, start_state};
ghost use Rattle.core_run.specs.Words.{has_object};
ghost use Rattle.flow_code.specs.Threads.{Thread};
ghost use Rattle.run_theory.specs.Labels.{Label};
ghost use Rattle.run_theory.specs.Laws.{NoAccess};
ghost use Rattle.run_theory.specs.Ordered.{Event, event_access, event_at, event_of, event_thread, IsHeldBy, Ordered, state_at};
ghost use Rattle.run_theory.specs.Steps.{State, stepped};
ghost use Rattle.lock_ownership.specs.Holders.{held_after_event, held_along, holder, holds_lock, holds_stripe, IsExclusive, names, shared};
ghost use Rattle.lock_ownership.specs.ThreadStripes.{HasItsStripes, IsOfMemory, owes_stripe};

/// Law: a mutex is held by the thread that its word names, in the way that the law of order by a lock asks for, whatever
/// the mode. No two threads hold it at once; who no longer holds it has unlocked it, and who newly holds it has locked it.
pub fn law_mutex_held()
    ensures { (code : Code) (setup : SetupView) (cell : ℕ) →
        IsRunnable code →
        IsWithinLimits setup →
        has_object code setup (Mutex cell) ≡ true →
        IsHeldBy (machine code setup) (Mutex cell) (λ mode. names code setup (Mutex cell)) (start_state code setup) }
{}

/// Law: each step makes of a mutex's holder what its event does to it: a lock or a trylock that answers 0 makes its thread the
/// holder, an unlock that answers 0 frees the mutex, and nothing else changes the holder.
pub fn law_mutex_step()
    ensures { (code : Code) (setup : SetupView) (cell : ℕ) (before after : State Told) (label : Label) →
        IsRunnable code →
        IsWithinLimits setup →
        has_object code setup (Mutex cell) ≡ true →
        IsReachable code setup before →
        stepped (machine code setup) before label ≡ Some after →
        holder code setup (Mutex cell) after ≡ held_after_event (Mutex cell) (holder code setup (Mutex cell) before) (event_of (machine code setup) before label) }
{}

/// Law: after a run the word of a mutex tells the holder that the run's operations on the mutex have made.
pub fn law_mutex_holder()
    ensures { (code : Code) (setup : SetupView) (cell : ℕ) (labels : List Label) (end : State Told) →
        IsRunnable code →
        IsWithinLimits setup →
        has_object code setup (Mutex cell) ≡ true →
        run_of code setup labels ≡ Some end →
        holder code setup (Mutex cell) end ≡ held_along code setup (Mutex cell) labels (start_state code setup) Free }
{}

/// Law: an access and a later event of another thread, each made while the mutex's word names its thread, are ordered.
pub fn law_ordered_by_mutex()
    ensures { (code : Code) (setup : SetupView) (cell : ℕ) (labels : List Label) (i j : ℕ) (first second : Event) (before after : State Told) →
        IsRunnable code →
        IsWithinLimits setup →
        has_object code setup (Mutex cell) ≡ true →
        i < j →
        event_at (machine code setup) labels (start_state code setup) i ≡ Some first →
        event_at (machine code setup) labels (start_state code setup) j ≡ Some second →
        event_access first ≢ NoAccess →
        event_thread first ≢ event_thread second →
        state_at (machine code setup) labels (start_state code setup) i ≡ Some before →
        state_at (machine code setup) labels (start_state code setup) j ≡ Some after →
        names code setup (Mutex cell) (event_thread first) before ≡ true →
        names code setup (Mutex cell) (event_thread second) after ≡ true →
        Ordered (event_at (machine code setup) labels (start_state code setup)) i j }
{}

/// Law: in each state that can be reached who holds a read-write lock for writing has no reader beside it.
pub fn law_rw_exclusive()
    ensures { (code : Code) (setup : SetupView) (cell : ℕ) (state : State Told) →
        IsRunnable code →
        IsWithinLimits setup →
        has_object code setup (Rw cell) ≡ true →
        IsReachable code setup state →
        IsExclusive (shared code setup (Rw cell) state) }
{}

/// Law: a read-write lock is held by the threads that its word shows, for reading or for writing, in the way that the law
/// of order by a lock asks for. Beside a thread that writes no other one holds it; who no longer holds it in a mode has
/// unlocked it, and who newly holds it in a mode has locked it in this or in the stronger one.
pub fn law_rw_held()
    ensures { (code : Code) (setup : SetupView) (cell : ℕ) →
        IsRunnable code →
        IsWithinLimits setup →
        has_object code setup (Rw cell) ≡ true →
        IsHeldBy (machine code setup) (Rw cell) (holds_lock code setup (Rw cell)) (start_state code setup) }
{}

/// Law: an access and a later event of another thread, each made while its thread holds the read-write lock, in modes that
/// exclude each other, are ordered.
pub fn law_ordered_by_rwlock()
    ensures { (code : Code) (setup : SetupView) (cell : ℕ) (first_mode second_mode : Mode) (labels : List Label) (i j : ℕ) (first second : Event) (before after : State Told) →
        IsRunnable code →
        IsWithinLimits setup →
        has_object code setup (Rw cell) ≡ true →
        excludes first_mode second_mode ≡ true →
        i < j →
        event_at (machine code setup) labels (start_state code setup) i ≡ Some first →
        event_at (machine code setup) labels (start_state code setup) j ≡ Some second →
        event_access first ≢ NoAccess →
        event_thread first ≢ event_thread second →
        state_at (machine code setup) labels (start_state code setup) i ≡ Some before →
        state_at (machine code setup) labels (start_state code setup) j ≡ Some after →
        holds_lock code setup (Rw cell) first_mode (event_thread first) before ≡ true →
        holds_lock code setup (Rw cell) second_mode (event_thread second) after ≡ true →
        Ordered (event_at (machine code setup) labels (start_state code setup)) i j }
{}

/// Law: a stripe is held by the thread whose list holds it, in the way that the law of order by a lock asks for. No two
/// threads hold it at once; who no longer holds it has given it or lost it to a revoke, and who newly holds it has
/// taken it or taken it again.
pub fn law_stripe_held()
    ensures { (code : Code) (setup : SetupView) (lock stripe : ℕ) →
        IsRunnable code →
        IsWithinLimits setup →
        has_object code setup (Weak lock stripe) ≡ true →
        IsHeldBy (machine code setup) (Weak lock stripe) (λ mode. holds_stripe lock stripe) (start_state code setup) }
{}

/// Law: in each state that can be reached a stripe's word names a thread exactly where the thread's list holds the stripe;
/// and no thread holds a stripe that the machine doesn't have.
pub fn law_stripe_named()
    ensures named { (code : Code) (setup : SetupView) (state : State Told) (lock stripe t : ℕ) →
        IsRunnable code →
        IsWithinLimits setup →
        IsReachable code setup state →
        has_object code setup (Weak lock stripe) ≡ true →
        names code setup (Weak lock stripe) t state ≡ holds_stripe lock stripe t state }
    ensures known { (code : Code) (setup : SetupView) (state : State Told) (lock stripe t : ℕ) →
        IsRunnable code →
        IsWithinLimits setup →
        IsReachable code setup state →
        holds_stripe lock stripe t state ≡ true →
        has_object code setup (Weak lock stripe) ≡ true }
{}

/// Law: an access and a later event of another thread, each made while its thread holds the stripe, are ordered.
pub fn law_ordered_by_stripe()
    ensures { (code : Code) (setup : SetupView) (lock stripe : ℕ) (labels : List Label) (i j : ℕ) (first second : Event) (before after : State Told) →
        IsRunnable code →
        IsWithinLimits setup →
        i < j →
        event_at (machine code setup) labels (start_state code setup) i ≡ Some first →
        event_at (machine code setup) labels (start_state code setup) j ≡ Some second →
        event_access first ≢ NoAccess →
        event_thread first ≢ event_thread second →
        state_at (machine code setup) labels (start_state code setup) i ≡ Some before →
        state_at (machine code setup) labels (start_state code setup) j ≡ Some after →
        holds_stripe lock stripe (event_thread first) before ≡ true →
        holds_stripe lock stripe (event_thread second) after ≡ true →
        Ordered (event_at (machine code setup) labels (start_state code setup)) i j }
{}

/// Law: in each state that can be reached the stripes of a thread are those of its open regions, each held or owed and not
/// both; and so they are after its quiet steps, by which it comes to its next action.
pub fn law_open_regions()
    ensures now { (code : Code) (setup : SetupView) (state : State Told) (t : ℕ) (told : Told) →
        IsRunnable code →
        IsWithinLimits setup →
        IsReachable code setup state →
        slice_get state.threads t ≡ Some told →
        HasItsStripes told.thread }
    ensures settled { (code : Code) (setup : SetupView) (state : State Told) (t : ℕ) (told : Told) →
        IsRunnable code →
        IsWithinLimits setup →
        IsReachable code setup state →
        slice_get state.threads t ≡ Some told →
        HasItsStripes (settled code setup t told.thread) }
{}

/// Law: by its quiet steps a thread gets no stripe and lets none go.
pub fn law_quiet_stripes()
    ensures { (code : Code) (setup : SetupView) (state : State Told) (t : ℕ) (told : Told) (lock stripe : ℕ) →
        IsRunnable code →
        IsWithinLimits setup →
        IsReachable code setup state →
        slice_get state.threads t ≡ Some told →
        holds (settled code setup t told.thread).stripes lock stripe ≡ holds told.thread.stripes lock stripe }
{}

/// Law: where an access or a mark comes next in a thread, it holds each stripe of its open regions, and owes none.
pub fn law_access_holds()
    ensures holds { (code : Code) (setup : SetupView) (state : State Told) (t : ℕ) (told : Told) (lock stripe : ℕ) →
        IsRunnable code →
        IsWithinLimits setup →
        IsReachable code setup state →
        slice_get state.threads t ≡ Some told →
        IsOfMemory (next code setup t told.thread) →
        stripe < 8 →
        0 < nesting (settled code setup t told.thread).regions (8 * lock + stripe) →
        holds_stripe lock stripe t state ≡ true }
    ensures owes { (code : Code) (setup : SetupView) (t lock stripe : ℕ) (thread : Thread) →
        IsOfMemory (next code setup t thread) →
        owes_stripe (settled code setup t thread).stripes lock stripe ≡ false }
{}
