/// Where a formal or a local of a function is kept.
#[derive(Clone, Copy, Debug, PartialEq, Eq)]
pub enum Home {
    /// In the register with this number.
    Register(u32),
    /// In the cells of the object with this number.
    Object(u32),
}
