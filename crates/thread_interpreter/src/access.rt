/// A load or store of a cell: its thread, how many events this had made before, the cell, the word that was read or
/// written, and whether it was a store.
#[derive(Clone, Copy, Debug, PartialEq, Eq)]
pub struct Access {
    pub thread: u8,
    pub count: u32,
    pub cell: u32,
    pub value: u64,
    pub store: bool,
}

/// What is asked of an access: loads or stores or both, of one thread or any, of the cells from `low` to `high`, of
/// one value as a signed number or any.
#[derive(Clone, Copy, Debug, PartialEq, Eq)]
pub struct Formula {
    pub loads: bool,
    pub stores: bool,
    pub thread: Option<u8>,
    pub low: u32,
    pub high: u32,
    pub value: Option<i64>,
}
