//! Which constraints are to be applied again: those that read the set of a node to which a number was added.
ghost use Rattle.std.specs.Prelude.{◌≤◌, ◌^◌, length};

use crate::nodes::{place_at, spot_of};
use crate::sets::{RowIndex, Sets};
use facts::{Constraint, Node};
use flow_code::Code;
use std::alloc::{AllocError, Global};
use std::mem;

/// The constraints that wait, by their numbers, and those that read the set of each node.
#[derive(Drop)]
pub struct Agenda {
    waiting: Vec<usize>,
    waits: Vec<bool>,
    /// By block and row, as the sets.
    readers: Vec<Vec<Vec<usize>>>,
    /// A row for each constraint: the places whose cells it is known to load.
    loaded: Sets,
}

/// The node whose set a constraint reads; a store reads that of its pointer.
fn source_of(constraint: Constraint) -> Option<Node> {
    match constraint {
        Constraint::Given { .. } => None,
        Constraint::Included { from, .. }
        | Constraint::Shifted { from, .. }
        | Constraint::Strided { from, .. } => Some(from),
        Constraint::Loaded { through, .. } | Constraint::Stored { through, .. } => Some(through),
    }
}

/// The node whose set a constraint adds to, where it isn't a store.
fn target_of(constraint: Constraint) -> Option<Node> {
    match constraint {
        Constraint::Given { node, .. } => Some(node),
        Constraint::Included { to, .. }
        | Constraint::Shifted { to, .. }
        | Constraint::Strided { to, .. } => Some(to),
        Constraint::Loaded { into, .. } => Some(into),
        Constraint::Stored { .. } => None,
    }
}

/// So many empty lists.
fn empty_lists(alloc: Global, count: usize) -> Result<Vec<Vec<usize>>, AllocError> {
    let mut lists = Vec::new(alloc);
    for _k in 0..count {
        lists.push(Vec::new(alloc))?;
    }
    Ok(lists)
}

/// No reader for any row.
fn no_readers(alloc: Global, sets: &Sets) -> Result<Vec<Vec<Vec<usize>>>, AllocError> {
    let mut readers = Vec::new(alloc);
    for block in 0..sets.blocks() {
        readers.push(empty_lists(alloc, sets.count(block))?)?;
    }
    Ok(readers)
}

/// One number more in the list at this place, if there is one.
fn push_at(lists: &mut Vec<Vec<usize>>, at: usize, k: usize) -> Result<(), AllocError> {
    if at < lists.len() {
        lists[at].push(k)?;
    }
    Ok(())
}

impl Agenda {
    /// All constraints wait.
    pub fn new(
        alloc: Global,
        code: &Code,
        constraints: &[Constraint],
        sets: &Sets,
    ) -> Result<Agenda, AllocError>
        requires { length code.now.functions ≤ 2 ^ 20 }
    {
        let readers = no_readers(alloc, sets)?;
        let mut loaded = Sets::new(alloc);
        loaded.push_block(alloc, constraints.len())?;
        let mut agenda = Agenda {
            waiting: Vec::new(alloc),
            waits: Vec::new(alloc),
            readers,
            loaded,
        };
        for k in 0..constraints.len() {
            agenda.waiting.push(k)?;
            agenda.waits.push(true)?;
            agenda.read_by(code, constraints[k], k)?;
        }
        Ok(agenda)
    }

    /// The constraint reads the sets that it names.
    fn read_by(&mut self, code: &Code, constraint: Constraint, k: usize) -> Result<(), AllocError>
        requires { length code.now.functions ≤ 2 ^ 20 }
    {
        if let Some(node) = source_of(constraint) {
            self.add_reader(spot_of(code, node), k)?;
        }
        if let Constraint::Stored { from, .. } = constraint {
            self.add_reader(spot_of(code, from), k)?;
        }
        Ok(())
    }

    fn add_reader(&mut self, spot: RowIndex, k: usize) -> Result<(), AllocError> {
        if spot.block < self.readers.len() {
            push_at(&mut self.readers[spot.block], spot.at, k)?;
        }
        Ok(())
    }

    /// Takes all constraints that wait, in the order of the text, or from its end.
    pub fn take(&mut self, alloc: Global, back: bool) -> Result<Vec<usize>, AllocError> {
        let mut numbers = mem::replace(&mut self.waiting, Vec::new(alloc));
        numbers.sort()?;
        if back {
            numbers.reverse();
        }
        Ok(numbers)
    }

    /// A constraint is about to be applied.
    pub fn begin(
        &mut self,
        code: &Code,
        sets: &Sets,
        constraint: Constraint,
        k: usize,
    ) -> Result<(), AllocError>
        requires { length code.now.functions ≤ 2 ^ 20 }
    {
        if k < self.waits.len() {
            self.waits[k] = false;
        }
        match constraint {
            Constraint::Loaded { through, .. } => self.load(code, sets, spot_of(code, through), k),
            _ => Ok(()),
        }
    }

    /// The constraint loads the cells of the places of a row.
    fn load(&mut self, code: &Code, sets: &Sets, spot: RowIndex, k: usize) -> Result<(), AllocError>
        requires { length code.now.functions ≤ 2 ^ 20 }
    {
        for j in 0..sets.len_of(spot) {
            if let Some(place) = sets.get(spot, j) {
                self.load_place(code, place, k)?;
            }
        }
        Ok(())
    }

    fn load_place(&mut self, code: &Code, place: u16, k: usize) -> Result<(), AllocError>
        requires { length code.now.functions ≤ 2 ^ 20 }
    {
        if k < self.loaded.count(0) && self.loaded.add(RowIndex { block: 0, at: k }, place)? {
            self.add_reader(spot_of(code, Node::Cells(place_at(place))), k)?;
        }
        Ok(())
    }

    /// The constraint was applied; if it has added a number, those that read what it adds to wait.
    pub fn applied(
        &mut self,
        code: &Code,
        sets: &Sets,
        constraint: Constraint,
        added: bool,
    ) -> Result<(), AllocError>
        requires { length code.now.functions ≤ 2 ^ 20 }
    {
        if !added {
            return Ok(());
        }
        if let Some(node) = target_of(constraint) {
            self.wake(spot_of(code, node))?;
        }
        match constraint {
            Constraint::Stored { through, .. } => self.wake_cells(
                code,
                sets,
                spot_of(code, through),
            ),
            _ => Ok(()),
        }
    }

    /// The readers of the cells of the places of a row wait.
    fn wake_cells(&mut self, code: &Code, sets: &Sets, spot: RowIndex) -> Result<(), AllocError>
        requires { length code.now.functions ≤ 2 ^ 20 }
    {
        for j in 0..sets.len_of(spot) {
            if let Some(place) = sets.get(spot, j) {
                self.wake(spot_of(code, Node::Cells(place_at(place))))?;
            }
        }
        Ok(())
    }

    /// The j-th reader of a row.
    fn reader_at(&self, spot: RowIndex, j: usize) -> Option<usize> {
        let Some(rows) = self.readers.get(spot.block) else {
            return None;
        };
        match rows.get(spot.at) {
            Some(readers) => readers.get(j).copied(),
            None => None,
        }
    }

    /// The readers of a row wait.
    fn wake(&mut self, spot: RowIndex) -> Result<(), AllocError> {
        for j in 0..usize::MAX {
            let Some(k) = self.reader_at(spot, j) else {
                return Ok(());
            };
            self.wait(k)?;
        }
        Ok(())
    }

    /// The constraint waits.
    fn wait(&mut self, k: usize) -> Result<(), AllocError> {
        if k < self.waits.len() && !self.waits[k] {
            self.waits[k] = true;
            self.waiting.push(k)?;
        }
        Ok(())
    }
}
