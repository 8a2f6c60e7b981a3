// What a job comes to.

ghost use Rattle.std.specs.Prelude.{◌≡◌};
ghost use Rattle.job_outcomes.specs.Outcomes.{answers};

use command_line::Answer;
use rr_base::{Bytes, List};
use std::alloc::Global;
use std::marker::Model;

/// A file that is to be put: its name, and its content.
#[derive(Debug, Drop)]
pub struct Put<'a> {
    name: &'a str,
    content: Bytes,
}

impl<'a> Model for Put<'a> {
    ghost use Rattle.job_outcomes.specs.Puts.{Put};

    ghost Value = { Put };

    ghost view = { λ p. record { name = p.name.now; content = p.content } };
}

impl<'a> Put<'a> {
    /// A file of this name with these bytes.
    pub fn new(name: &'a str, content: Bytes) -> Put<'a>
        ensures { result ≡ record { name = name.now; content = content } }
    {
        Put { name, content }
    }

    /// The name of the file.
    pub fn name(&self) -> &'a str
        ensures { result.now ≡ self.now.name }
    {
        self.name
    }

    /// The bytes of the file.
    pub fn content(&self) -> &Bytes
        ensures { result.now ≡ self.now.content }
    {
        &self.content
    }
}

/// The files that a job puts, in their order, and its answer.
#[derive(Debug, Drop)]
pub struct Outcome<'a> {
    pub puts: List<Put<'a>>,
    pub answer: Answer,
}

impl<'a> Outcome<'a> {
    /// An answer alone.
    pub fn answers(alloc: Global, answer: Answer) -> Outcome<'a>
        ensures { result ≡ answers answer }
    {
        Outcome {
            puts: List::new(alloc),
            answer,
        }
    }
}
