// Which event of a run a word names.

ghost use Rattle.std.specs.Prelude.{◌≡◌};
ghost use Rattle.command_line.specs.Events as spec;

use crate::number::number_within;

/// The event of a run that a thread makes after so many others of its own.
#[derive(Clone, Copy, Debug)]
pub struct Event {
    pub thread: u8,
    pub count: u32,
}

/// The event that a word names: a thread and a count, with a point between them.
pub fn event_named(word: &str) -> Option<Event>
    ensures { result ≡ spec.event_named word.now }
{
    let (thread, count) = word.split_once('.')?;
    let count = number_within(0, 67_108_865, count)?;
    let thread = number_within(0, 15, thread)?;
    Some(Event {
        thread: thread as u8,
        count,
    })
}
