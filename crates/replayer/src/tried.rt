use crate::step::Step;

/// What a turn at an entry has come to: the departure word that it found, and its step.
#[derive(Clone, Copy)]
pub(crate) struct Tried {
    pub bound: u32,
    pub step: Step,
}
