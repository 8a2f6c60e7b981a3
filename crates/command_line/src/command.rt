// The commands, and the options that each takes.

ghost use Rattle.std.specs.Prelude.{◌≡◌, length};
ghost use Rattle.command_line.specs.Jobs as spec;
ghost use Rattle.command_line.specs.Reader.{words_of};

/// What the first word says is to be done.
#[derive(Clone, Copy, Debug)]
pub enum Command {
    Races,
    Weaken,
    Record,
    Replay,
    Profile,
    Watch,
    Chain,
    Checkpoint,
    Make,
}

impl Command {
    /// The command that a word is.
    pub fn of(word: &str) -> Option<Command>
        ensures { result ≡ spec.command_of word.now }
    {
        match word {
            "races" => Some(Command::Races),
            "weaken" => Some(Command::Weaken),
            "record" => Some(Command::Record),
            "replay" => Some(Command::Replay),
            "profile" => Some(Command::Profile),
            "watch" => Some(Command::Watch),
            "chain" => Some(Command::Chain),
            "checkpoint" => Some(Command::Checkpoint),
            "make" => Some(Command::Make),
            _ => None,
        }
    }

    /// How many positional words it takes.
    pub fn number(self) -> u8
        ensures { result ≡ length (words_of self) }
    {
        match self {
            Command::Races | Command::Weaken => 1,
            Command::Record | Command::Replay | Command::Make => 2,
            Command::Profile | Command::Watch => 3,
            Command::Chain | Command::Checkpoint => 4,
        }
    }

    /// Whether an option of this name may be given.
    pub fn takes(self, option: &str) -> bool
        ensures { result ≡ spec.takes self option.now }
    {
        match self {
            Command::Weaken => option == "profile",
            Command::Record => is_of_record(option),
            Command::Replay => matches!(option, "reads" | "from"),
            Command::Races
            | Command::Profile
            | Command::Watch
            | Command::Chain
            | Command::Checkpoint
            | Command::Make => false,
        }
    }
}

fn is_of_record(option: &str) -> bool
    ensures { result ≡ spec.takes Command.Record option.now }
{
    matches!(
        option,
        "profile" | "slots" | "cells" | "limit" | "budget" | "reads"
    )
}
