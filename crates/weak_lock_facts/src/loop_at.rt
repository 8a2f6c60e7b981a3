use flow_code::LoopInfo;

/// A counted loop, and the number of its function.
#[derive(Clone, Copy, Debug, PartialEq, Eq)]
pub struct LoopAt {
    pub function: u32,
    pub counted: LoopInfo,
}
