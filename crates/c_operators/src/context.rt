//! What is known where an expression stands.
ghost use Rattle.std.specs.Prelude.{◌≡◌, IfOk, position, slice_get};
ghost use Rattle.c_types.specs.Shown.{shown_operand, shown_maybe};
ghost use Rattle.c_types.specs.Scopes.{cells_of_some, members_of};
ghost use Rattle.c_names.specs.Table.{known_of};
ghost use Rattle.c_operators.specs.Context as spec;
ghost use Rattle.c_operators.specs.Views.{source_in, frame_in, context_of};

use crate::home::Home;
use c_names::Table;
use c_numbers::NumberTable;
use c_types::{Names, Operand, TypeRef};
use indexmap::IndexMap;
use rr_base::{CellKind, List, Position, PtrWord, Site};
use std::alloc::AllocError;

/// What is known of the whole source.
#[derive(Drop)]
pub struct Source<'a> {
    /// The table after the whole source: each struct has its members and its size.
    pub whole: Table<'a>,
    /// The cells of each struct.
    pub kinds: List<List<CellKind>>,
    pub sites: &'a [Site],
    /// The word of the pointer to each global; its base counts from the first global cell.
    pub globals: IndexMap<&'a [u8], u64>,
}

/// A function's formals and locals.
#[derive(Drop)]
pub struct Frame {
    /// The number of the first formal.
    pub first: usize,
    /// Where each formal and local is kept, in the order of the text.
    pub homes: List<Home>,
    /// Whether the function gives a pointer.
    pub gives_pointer: bool,
}

/// Where an expression stands: its source, its function, and what is seen at its place.
#[derive(Clone, Copy)]
pub struct Context<'h, 'a> {
    pub source: &'h Source<'a>,
    pub frame: &'h Frame,
    pub table: &'h Table<'a>,
    pub numbers: &'h NumberTable<'a>,
}

fn stands_at(site: &Site, at: Position) -> bool
    ensures { result ≡ spec.stands_at at site.now }
{
    site.at == at
}

fn site_placed(sites: &[Site], at: Position) -> Option<usize>
    ensures { result ≡ position (spec.stands_at at) sites.now }
{
    sites.iter().position(|site| stands_at(site, at))
}

/// The number of the site that stands at the place, from 1; 0 where none does. More sites than 16 bits can count don't
/// fit the memory of a machine that runs their source.
pub fn site_at(sites: &[Site], at: Position) -> Result<u16, AllocError>
    ensures { IfOk result (λ n. n ≡ spec.site_at sites.now at) }
{
    match site_placed(sites, at) {
        None => Ok(0),
        Some(index) => match u16::try_from(index) {
            Ok(number) if number < u16::MAX => Ok(number + 1),
            _ => Err(AllocError),
        },
    }
}

/// The number of a function, which is its position among those of the source.
pub fn function_counted(number: Option<usize>) -> Result<u32, AllocError>
    ensures { IfOk result (λ n. n ≡ spec.function_counted number) }
{
    match number {
        None => Ok(0),
        Some(index) => match u32::try_from(index) {
            Ok(number) => Ok(number),
            Err(_) => Err(AllocError),
        },
    }
}

/// The pointer to a function, by its number: 0 where there is none.
pub fn function_word(number: Option<usize>) -> Result<u32, AllocError>
    ensures { IfOk result (λ n. n ≡ spec.function_word number) }
{
    match number {
        None => Ok(0),
        Some(index) => match u32::try_from(index) {
            Ok(number) if number < u32::MAX => Ok(number + 1),
            _ => Err(AllocError),
        },
    }
}

/// The number of a call through a pointer of a type, by the number of the type.
pub fn pointer_counted(table: &Table, number: usize) -> Result<u32, AllocError>
    ensures { IfOk result (λ n. n ≡ spec.pointer_counted (known_of table.now) number) }
{
    let Some(counted) = table.function_count().checked_add(number) else {
        return Err(AllocError);
    };
    match u32::try_from(counted) {
        Ok(counted) => Ok(counted),
        Err(_) => Err(AllocError),
    }
}

impl Frame {
    fn home_numbered(&self, number: Option<usize>) -> Option<Home>
        ensures { result ≡ spec.home_numbered (frame_in self.now) number }
    {
        let number = number?;
        if self.first <= number {
            self.homes.get(number - self.first).copied()
        } else {
            None
        }
    }
}

impl<'a> Source<'a> {
    /// The pointer to a global.
    pub fn global_named(&self, name: &[u8]) -> PtrWord
        ensures { result ≡ spec.global_named (source_in self.now) name.now }
    {
        match self.globals.get(name) {
            Some(address) => PtrWord::from_word(*address),
            None => PtrWord::null(),
        }
    }

    /// The cells of an element to which an operand points.
    pub fn element_of(&self, operand: Operand) -> u32
        ensures { result ≡ spec.element_of (source_in self.now) (shown_operand operand.entry) }
    {
        match operand {
            Operand::Pointing(to) => self.whole.cells_of(to),
            Operand::Any
            | Operand::Whole
            | Operand::Zero
            | Operand::Null
            | Operand::Function(_)
            | Operand::Unfit => 0,
        }
    }

    /// The cells of a type, if it is known.
    pub fn cells_of_some(&self, of: Option<TypeRef>) -> u32
        ensures { result ≡ cells_of_some (source_in self.now).whole (shown_maybe of.entry) }
    {
        match of {
            None => 0,
            Some(of) => self.whole.cells_of(of),
        }
    }

    /// How many cells lie before a member of a struct.
    pub fn offset_in(&self, number: Option<usize>, name: &[u8]) -> Result<u32, AllocError>
        ensures { IfOk result (λ n. n ≡ spec.offset_in (source_in self.now) number name.now) }
    {
        match number {
            None => Ok(0),
            Some(number) => self.offset_numbered(number, self.whole.member_numbered(number, name)),
        }
    }

    fn offset_numbered(&self, number: usize, member: Option<usize>) -> Result<u32, AllocError>
        ensures { IfOk result (λ n. n ≡ spec.offset_numbered (source_in self.now).whole (members_of (slice_get (source_in self.now).whole.structs number)) member) }
    {
        match member {
            None => Ok(0),
            Some(member) => self.cells_of_first(number, member),
        }
    }

    /// The cells of so many of the first members of a struct.
    fn cells_of_first(&self, number: usize, many: usize) -> Result<u32, AllocError>
        ensures { IfOk result (λ n. n ≡ spec.cells_of_first (source_in self.now).whole many (members_of (slice_get (source_in self.now).whole.structs number))) }
    {
        let mut cells: u32 = 0;
        for index in 0..many {
            match self.whole.member_at(number, index) {
                None => return Ok(cells),
                Some(of) => {
                    let Some(more) = cells.checked_add(self.cells_of_some(of)) else {
                        return Err(AllocError);
                    };
                    cells = more;
                }
            }
        }
        Ok(cells)
    }
}

impl<'h, 'a> Context<'h, 'a> {
    /// Where the name is kept, if it is a formal or a local.
    pub fn home_of(self, name: &[u8]) -> Option<Home>
        ensures { result ≡ spec.home_of (context_of self.entry) name.now }
    {
        self.frame.home_numbered(self.numbers.seen(name))
    }
}
