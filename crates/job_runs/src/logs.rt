// From the bytes of a log to the log.

ghost use Rattle.std.specs.Prelude.{IfErr};
ghost use Rattle.job_runs.specs.Logs.{IsLogIn};
ghost use Rattle.job_outcomes.specs.Faults.{IsPure};
ghost use Rattle.job_outcomes.specs.Steps.{Finds};

use command_line::Answer;
use job_outcomes::Stop;
use order_log::{Log, LogFault, read_log};
use std::alloc::Global;

/// The log that bytes are.
pub fn log_in(alloc: Global, bytes: &[u8]) -> Result<Log, Stop>
    ensures log { Finds (IsLogIn bytes.now) result }
    ensures pure { IfErr result IsPure }
{
    match read_log(alloc, bytes) {
        Ok(log) => Ok(log),
        Err(LogFault::LogSyntax(line)) => Err(Stop::Refused(Answer::LogRefused {
            number: 23,
            line,
        })),
        Err(LogFault::LogLimit(line)) => Err(Stop::Refused(Answer::LogRefused {
            number: 24,
            line,
        })),
        Err(LogFault::OutOfMemory) => Err(Stop::OutOfMemory),
    }
}
