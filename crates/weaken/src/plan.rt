use rr_base::List;

/// What is known of a block: the last of its accesses that are guarded with it, and their locks.
#[derive(Debug, Drop)]
pub struct Part {
    pub last: usize,
    pub locks: List<u16>,
}

/// For each instruction of a function the numbers of the regions that begin with it, end before it, and are left there
/// because it returns, and where that which stands before it comes to stand.
#[derive(Debug, Drop)]
pub struct Plan {
    pub begins: Vec<List<u32>>,
    pub ends: Vec<List<u32>>,
    pub left: Vec<List<u32>>,
    pub places: Vec<usize>,
}
