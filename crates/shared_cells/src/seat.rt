ghost use Rattle.std.specs.Prelude.{◌≡◌};

use crate::asked::Asked;
use crate::view::View;
use atomic_table::Seat as TableSeat;

/// What one thread steps with. Its owner raises `marks` at each mark of the thread; the next load, store or done attempt makes
/// these marks too, and sets it to 0.
#[derive(Drop)]
pub struct Seat {
    pub(crate) seat: TableSeat<Asked, View>,
    pub(crate) thread: u8,
    pub marks: u32,
}

impl Seat {
    /// The thread's number.
    pub fn thread(&self) -> u8
        ensures { result ≡ self.now.thread }
    {
        self.thread
    }
}
