// What may be asked of the program.

use crate::event::Event;
use thread_interpreter::Formula;

/// What is asked for. Sources, logs, profiles and reads go by the names of their files.
#[derive(Clone, Copy, Debug)]
pub enum Job<'a> {
    /// The accesses of a source that may race.
    Races {
        source: &'a str,
    },
    /// The weak locks of a source, and the accesses that they guard.
    Weaken {
        source: &'a str,
        profile: Option<&'a str>,
    },
    /// A run of a source, whose log is put.
    Record(RecordJob<'a>),
    /// A run of a source by a log.
    Replay {
        source: &'a str,
        log: &'a str,
        reads: Option<&'a str>,
    },
    /// The profile of a log, put under a name.
    Profile {
        source: &'a str,
        log: &'a str,
        name: &'a str,
    },
    /// The first access of a log's run that meets a formula.
    Watch {
        source: &'a str,
        log: &'a str,
        formula: Formula,
    },
    /// What orders two accesses of a log's run, which are these events.
    Chain {
        source: &'a str,
        log: &'a str,
        one: Event,
        other: Event,
    },
    /// The state after so many entries of a log's run, put under a name.
    Checkpoint {
        source: &'a str,
        log: &'a str,
        count: u32,
        name: &'a str,
    },
    /// The rest of a log's run, from the state that a file holds.
    Resume {
        source: &'a str,
        log: &'a str,
        name: &'a str,
    },
    /// A made source with so many functions, recorded and replayed.
    Make {
        count: u32,
        name: &'a str,
    },
}

/// What is asked of a recording.
#[derive(Clone, Copy, Debug)]
pub struct RecordJob<'a> {
    pub source: &'a str,
    pub log: &'a str,
    pub profile: Option<&'a str>,
    /// How many threads there may be.
    pub slots: u8,
    /// The cells of each thread.
    pub cells: u32,
    /// The events of each thread.
    pub limit: u32,
    /// The turns after which a weak lock is taken from its holder.
    pub budget: u32,
    pub reads: Option<&'a str>,
}
