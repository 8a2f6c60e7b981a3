/// A place in a text: line and column, both from 1; a column counts bytes. Places are ordered as they stand in the text.
#[derive(Clone, Copy, Debug, PartialEq, Eq, PartialOrd, Ord)]
pub struct Position {
    pub line: u32,
    pub column: u32,
}
