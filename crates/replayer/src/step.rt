/// What a step has made of the next entry of its thread.
#[derive(Clone, Copy, Debug, PartialEq, Eq)]
pub enum Step {
    /// Nothing: it isn't the entry's turn on its object.
    Waits,
    /// A load, a store or a mark, before the entry's count.
    Goes,
    /// The entry.
    Makes,
    /// Nothing: the thread can't make the entry any more.
    Departs,
}
