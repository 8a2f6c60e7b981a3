/// The words that are left when all seats are given back: those of the cells and objects, and the departure word.
#[derive(Debug, Drop)]
pub struct Closed {
    pub words: Vec<u64>,
    pub departure: u32,
}
