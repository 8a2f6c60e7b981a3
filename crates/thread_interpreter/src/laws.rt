//! Laws of the parts of threads, over the definitions alone: their functions do nothing.
ghost use Rattle.std.specs.Prelude.{◌≡◌, true};
ghost use Rattle.flow_code.specs.Threads.{Thread};
ghost use Rattle.flow_code.specs.Next.{has_ended};
ghost use Rattle.thread_interpreter.specs.Parts.{part_of, thread_of, IsParted, IsEndedAs};

/// Law: the part of a thread that hasn't ended stands for that very thread.
pub fn law_parted()
    ensures { (thread : Thread) → IsParted thread → thread_of (part_of thread) ≡ thread }
{}

/// Law: the part of a thread that has ended stands for one that has ended alike.
pub fn law_ended_parted()
    ensures { (thread : Thread) → has_ended thread.phase ≡ true → IsEndedAs thread (thread_of (part_of thread)) }
{}
