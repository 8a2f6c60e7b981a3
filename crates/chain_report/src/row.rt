use sync_objects::{Entry, Mode};

/// What is noted of an entry while a chain is looked for: whether a pass may begin with it, in which mode it lets its object go,
/// and to which entry it is linked.
#[derive(Clone, Copy, Debug, PartialEq, Eq)]
pub(crate) struct Row {
    pub entry: Entry,
    pub eligible: bool,
    pub released: Option<Mode>,
    pub link: Option<u32>,
}
