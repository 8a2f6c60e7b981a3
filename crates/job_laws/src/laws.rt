// How far files and words determine an outcome and a status.

ghost use Rattle.job_laws.specs.Laws.{OneOutcome, OneRefusal, StatusesHaveCauses};
ghost use Rattle.job_laws.specs.Repeats.{ReplayRepeats, ResumeRepeats};

use walk_checkpoints::law_rest_repeats;

/// A job that records no run has one outcome on files.
pub fn law_one_outcome()
    ensures { OneOutcome }
{}

/// A job that is refused on files and an input has no other outcome.
pub fn law_one_refusal()
    ensures { OneRefusal }
{}

/// Each status has its cause. Where nothing failed a cause in the words, the files or the input has its status.
pub fn law_statuses_have_causes()
    ensures { StatusesHaveCauses }
{}

/// The log of a recording, replayed with the same source and the same `--reads`, comes to the same status, bytes and read values.
pub fn law_replay_repeats()
    ensures { ReplayRepeats }
{}

/// What `replay --from` writes of a checkpoint that `checkpoint` put, with the same source and the same log: what a replay of the log
/// writes after the first entries, with its status. The checkpoint is never refused.
pub fn law_resume_repeats()
    ensures { ResumeRepeats }
{
    law_rest_repeats();
}
