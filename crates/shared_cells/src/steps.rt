// The rule of the table, and what each kind of step on it tells.
ghost use Rattle.shared_cells.specs.Rule.{Holds, everyone, first_part, other_part, both};
ghost use Rattle.shared_cells.specs.Views.{nobody};
ghost use Rattle.shared_cells.specs.Plays.{LoadsCell, StoresCell, exchanging, Looks, Departs, Lowers, Puts, Stays};

use crate::asked::Asked;
use crate::view::{TableInput, View};
use atomic_table::{Join, Play, Split, TableRule};

/// The words and the views show a state that can be reached.
pub struct Rule;

impl<'a> TableRule<Asked, View, TableInput<'a>> for Rule {
    ghost holds = { Holds };

    ghost first = { everyone };
}

/// A load of a cell.
pub struct Load;

impl Play<Asked, View> for Load {
    ghost then = { LoadsCell };
}

/// A store into a cell.
pub struct Store;

impl Play<Asked, View> for Store {
    ghost then = { StoresCell };
}

/// The exchange of an object's word by which an operation is made.
pub struct Exchange;

impl Play<Asked, View> for Exchange {
    ghost then = { exchanging };
}

/// A look at a word that is no cell's.
pub struct Look;

impl Play<Asked, View> for Look {
    ghost then = { Looks };
}

/// A look at the departure word.
pub struct Depart;

impl Play<Asked, View> for Depart {
    ghost then = { Departs };
}

/// A position put into the departure word.
pub struct Lower;

impl Play<Asked, View> for Lower {
    ghost then = { Lowers };
}

/// A store of a value that the seat has met then.
pub struct Put;

impl Play<Asked, View> for Put {
    ghost then = { Puts };
}

/// A step that tells nothing.
pub struct Stay;

impl Play<Asked, View> for Stay {
    ghost then = { Stays };
}

/// The first of the threads is given to one seat, the others to another one.
pub struct Part;

impl Split<View> for Part {
    ghost left = { first_part };

    ghost right = { other_part };
}

/// Two seats become one, and the other one is spent.
pub struct Whole;

impl Join<View> for Whole {
    ghost both = { both };

    ghost spent = { nobody };
}
