//! Laws of the accesses of walks, over the definitions alone: their functions do nothing.

ghost use Rattle.std.specs.Prelude.{List, Contains};
ghost use Rattle.sync_objects.specs.Setup.{SetupView, IsWithinLimits};
ghost use Rattle.sync_objects.specs.declared.entry.Entry.{Entry};
ghost use Rattle.flow_code.specs.declared.code.Code.{Code};
ghost use Rattle.flow_code.specs.Settle.{IsRunnable};
ghost use Rattle.walk_accesses.specs.Accesses.{Placed, accesses_in};
ghost use Rattle.walk_accesses.specs.Parts.{IsInPart};

/// Law: each access of a walk is in the part of its thread's first entry whose count is above the access's.
pub fn law_part()
    ensures { (code : Code) (setup : SetupView) (entries : List Entry) (x : Placed) →
        IsRunnable code →
        IsWithinLimits setup →
        Contains (accesses_in code setup entries) x →
        IsInPart entries x }
{}
