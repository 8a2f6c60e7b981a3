//! The laws of a source's loops.
ghost use Rattle.std.specs.Prelude.{◌≡◌, true};
ghost use Rattle.core_tree.specs.Core.{Program};
ghost use Rattle.flow_lower.specs.Lowered.{lowered};
ghost use Rattle.weak_valid.specs.Apart.{loops_are_apart};
ghost use Rattle.guard_paths.specs.LoopsClosed.{loops_are_closed};

/// The Marks of the loops that a core tree's code lists ascend in each function.
pub fn law_loops_are_apart()
    ensures { (p : Program) → loops_are_apart (lowered p) ≡ true }
{}

/// A jump from inside of a loop that a core tree's code lists goes to its inside or right after it, and no later instruction
/// jumps back to its Mark.
pub fn law_loops_are_closed()
    ensures { (p : Program) → loops_are_closed (lowered p) ≡ true }
{}
