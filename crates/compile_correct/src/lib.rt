//! Runs of a text: what the machine of its code does is a run of the source, and so is what that of its weakened code
//! does, whose logs walk to what they were written of. It has no program, and promises its laws.
//!
//! Its contract: `law_text_run`, `law_text_walk`: each run and each walk of a text's code is a run of its source;
//! `law_text_log`: the log of a run of its weakened code walks to that run's end, as a run of the source that prints
//! the walk's bytes.
//! It knows nothing of files, texts of logs.
#![tactic(auto)]

ghost use Rattle.std.specs.Prelude.{◌≡◌, ◌≤◌, ◌^◌, List, length, Some};
ghost use Rattle.sync_objects.specs.Setup.{SetupView, IsWithinLimits};
ghost use Rattle.sync_objects.specs.declared.entry.Entry.{Entry};
ghost use Rattle.rr_base.specs.Texts.{Text};
ghost use Rattle.c_tree.specs.Tree.{Outer};
ghost use Rattle.c_elaborate.specs.Whole.{core_of_source};
ghost use Rattle.facts.specs.declared.pair.Pair.{Pair};
ghost use Rattle.facts.specs.PointsTo.{Tables};
ghost use Rattle.weak_lock_facts.specs.declared.grain.Grained.{Grained};
ghost use Rattle.weak_lock_facts.specs.declared.range.Range.{Range};
ghost use Rattle.weak_code.specs.Weakened.{weakened};
ghost use Rattle.erasure.specs.Erased.{erased_events, erased_walk, IsAnywhere};
ghost use Rattle.core_run.specs.Histories.{run_of, HaveEnded, lists_of, entries_in};
ghost use Rattle.core_run.specs.Machine.{Told, start_state};
ghost use Rattle.core_run.specs.Walks.{walk_of, out_of};
ghost use Rattle.front.specs.Plain.{plain_code};
ghost use Rattle.front.specs.Readings.{sound, IsReading};
ghost use Rattle.lock_sound.specs.Weakened.{Analysed, IsAnalysed};
ghost use Rattle.run_theory.specs.Labels.{Label};
ghost use Rattle.run_theory.specs.Merge.{written_merge};
ghost use Rattle.run_theory.specs.Steps.{State};
ghost use Rattle.lowering_simulation.specs.RunEvents.{events_of_run};
ghost use Rattle.lowering_simulation.specs.SourceRuns.{IsSourceRun, IsBeforeEntry, bytes_of};
ghost use Rattle.lowering_simulation.specs.WalkEvents.{events_of_walk};

/// Each run of the code of a text that is read as a source without a fault, in any interleaving, with any stops and closes, is
/// a run of that source.
pub fn law_text_run()
    ensures { (text : Text) (os : List Outer) (setup : SetupView) (labels : List Label) (end : State Told) →
        length text ≤ 2 ^ 20 →
        IsReading text (sound os) →
        IsWithinLimits setup →
        run_of (plain_code os) setup labels ≡ Some end →
        IsSourceRun (core_of_source os) setup IsBeforeEntry (events_of_run (plain_code os) setup labels) }
{}

/// So is each walk of its code, by whatever list of entries: that of a log that `replay` reads, for one. The bytes that the walk
/// tells are those that this run of the source prints.
pub fn law_text_walk()
    ensures { (text : Text) (os : List Outer) (setup : SetupView) (entries : List Entry) (end : State Told) →
        length text ≤ 2 ^ 20 →
        IsReading text (sound os) →
        IsWithinLimits setup →
        walk_of (plain_code os) setup entries (start_state (plain_code os) setup) ≡ Some end →
        IsSourceRun (core_of_source os) setup IsBeforeEntry (events_of_walk (plain_code os) setup entries)
        × (out_of (plain_code os) setup entries (start_state (plain_code os) setup) ≡ bytes_of (events_of_walk (plain_code os) setup entries)) }
{}

/// Each run of the weakened code of such a text, in any interleaving, with any revokes, stops and closes, is a run of the source
/// once the operations on stripes are left out, whatever pairs, ranges and grains the code was weakened by. Only where a
/// thread's list in the log is full may it trap in place of what it does next.
pub fn law_text_erasure()
    ensures { (text : Text) (os : List Outer) (t : Tables) (vs : List Pair) (rs : List Range) (rows : List Grained) (setup : SetupView) (labels : List Label) (end : State Told) →
        length text ≤ 2 ^ 20 →
        IsReading text (sound os) →
        IsWithinLimits setup →
        run_of (weakened (plain_code os) t vs rs rows) setup labels ≡ Some end →
        IsSourceRun (core_of_source os) setup IsAnywhere (erased_events (weakened (plain_code os) t vs rs rows) setup labels) }
{}

/// So is each walk of it, by whatever list of entries, and the bytes that the walk tells are those that this run of the source
/// prints.
pub fn law_text_erased_walk()
    ensures { (text : Text) (os : List Outer) (t : Tables) (vs : List Pair) (rs : List Range) (rows : List Grained) (setup : SetupView) (entries : List Entry) (end : State Told) →
        length text ≤ 2 ^ 20 →
        IsReading text (sound os) →
        IsWithinLimits setup →
        walk_of (weakened (plain_code os) t vs rs rows) setup entries (start_state (weakened (plain_code os) t vs rs rows) setup) ≡ Some end →
        IsSourceRun (core_of_source os) setup IsAnywhere (erased_walk (weakened (plain_code os) t vs rs rows) setup entries)
        × (out_of (weakened (plain_code os) t vs rs rows) setup entries (start_state (weakened (plain_code os) t vs rs rows) setup) ≡ bytes_of (erased_walk (weakened (plain_code os) t vs rs rows) setup entries)) }
{}

/// The log of a run of such a text's weakened code in which all threads have ended, whatever the interleaving was, and with any
/// revokes, stops and closes, walks to that run's own end: with the same bytes printed, the same accesses in each thread, and
/// each thread ended as it did. And that walk is a run of the source, once the operations on stripes are left out, and tells the
/// bytes that this run of the source prints.
pub fn law_text_log()
    ensures { (text : Text) (os : List Outer) (a : Analysed) (setup : SetupView) (labels : List Label) (end : State Told) →
        length text ≤ 2 ^ 20 →
        IsReading text (sound os) →
        IsAnalysed a →
        a.plain ≡ plain_code os →
        IsWithinLimits setup →
        run_of a.weak setup labels ≡ Some end →
        HaveEnded a.weak setup end →
        (walk_of a.weak setup (entries_in (written_merge (lists_of end))) (start_state a.weak setup) ≡ Some end)
        × IsSourceRun (core_of_source os) setup IsAnywhere (erased_walk a.weak setup (entries_in (written_merge (lists_of end))))
        × (out_of a.weak setup (entries_in (written_merge (lists_of end))) (start_state a.weak setup) ≡ bytes_of (erased_walk a.weak setup (entries_in (written_merge (lists_of end))))) }
{}
