//! What registers are known to point to, carried on from instruction to instruction of a block.
ghost use Rattle.std.specs.Prelude.{◌≡◌, ℕ, ℤ, List as Items, Option, Bool, Some, None, if◌then◌else◌, IfOk, OnOk};
ghost use Rattle.word_semantics.specs.Pointers.{directed as directed_of};
ghost use Rattle.facts.specs.Blocks.{amount_by, assigns as assigns_of};
ghost use Rattle.facts.specs.Carried.{known_by, known_after, known_in, formal_in};
ghost use Rattle.facts.specs.Paths.{Root, known_of, known_on, known_on_by, naming_of as naming_by};

use crate::blocks::assigned;
use crate::locks::{LockPath, Naming};
use flow_code::{Act, Work};
use rr_base::PtrWord;
use std::alloc::{AllocError, Global};
use std::collections::HashMap;

// No object has more cells.
const MOST_CELLS: u128 = 65_535;

/// What is known of a pointer: so many cells after the first one of a global object, or after that to which a formal
/// points.
#[derive(Clone, Copy)]
pub enum Reach {
    Global { object: PtrWord, cells: u128 },
    Formal { index: u32, cells: u128 },
}

/// What a block has put into registers so far, as far as it is known.
pub type Reaches = HashMap<u32, Option<Reach>>;

// A number of elements, forwards or back; back, the least of 64 bits is one of 65.
fn directed(back: bool, elements: i64) -> i128
    ensures { result ≡ directed_of back elements }
{
    if back {
        -i128::from(elements)
    } else {
        i128::from(elements)
    }
}

// So many cells on, unless that is in front of the first. Beyond 128 bits, to which no function comes, it counts as want
// of memory.
fn cells_on(cells: u128, by: i128) -> Result<Option<u128>, AllocError>
    ensures { IfOk result (λ on. (root : Root) → known_after root on ≡ known_on (Some (record { root = root; cells = cells })) by) }
{
    let way = by.unsigned_abs();
    if by < 0 {
        return Ok(cells.checked_sub(way));
    }
    let cells = cells.checked_add(way).ok_or(AllocError)?;
    Ok(Some(cells))
}

fn moved(reach: Reach, by: i128) -> Result<Option<Reach>, AllocError>
    ensures { IfOk result (λ moved. known_by moved ≡ known_on (known_by (Some reach)) by) }
{
    let moved = match reach {
        Reach::Global { object, cells } => match cells_on(cells, by)? {
            Some(cells) => Some(Reach::Global { object, cells }),
            None => None,
        },
        Reach::Formal { index, cells } => match cells_on(cells, by)? {
            Some(cells) => Some(Reach::Formal { index, cells }),
            None => None,
        },
    };
    Ok(moved)
}

fn moved_on(known: Option<Reach>, by: i128) -> Result<Option<Reach>, AllocError>
    ensures { IfOk result (λ moved. known_by moved ≡ known_on (known_by known) by) }
{
    match known {
        Some(reach) => moved(reach, by),
        None => Ok(None),
    }
}

// So many elements of so many cells on or back. A number of cells beyond 128 bits, which no instruction makes, counts as
// want of memory.
fn moved_by(
    known: Option<Reach>,
    elements: Option<i64>,
    element: u32,
    back: bool,
) -> Result<Option<Reach>, AllocError>
    ensures { IfOk result (λ moved. known_by moved ≡ known_on_by (known_by known) elements element back) }
{
    let Some(elements) = elements else {
        return Ok(None);
    };
    let by = directed(back, elements)
        .checked_mul(i128::from(element))
        .ok_or(AllocError)?;
    moved_on(known, by)
}

// What a formal is known to point to: so much of those that keep their values.
fn formal(fixed: &[bool], register: u32) -> Option<Reach>
    ensures { known_by result ≡ formal_in fixed.now register }
{
    let index = register as usize;
    if index < fixed.len() && fixed[index] {
        Some(Reach::Formal {
            index: register,
            cells: 0,
        })
    } else {
        None
    }
}

/// What the register is known to point to.
pub fn known(held: &Reaches, fixed: &[bool], register: u32) -> Option<Reach>
    ensures { known_by result ≡ known_in held.now fixed.now register }
{
    match held.get(&register) {
        Some(reach) => *reach,
        None => formal(fixed, register),
    }
}

// What an instruction puts into the register that it assigns, where it moves by this amount.
fn given(
    held: &Reaches,
    fixed: &[bool],
    amount: Option<i64>,
    act: &Act,
) -> Result<Option<Reach>, AllocError>
    ensures { IfOk result (λ given. (constant : ℕ → Option ℤ) → amount ≡ amount_by constant (Some act.now) → known_by given ≡ known_of (known_in held.now fixed.now) constant (Some act.now)) }
{
    let Act::Compute { into: _, work } = act else {
        return Ok(None);
    };
    match work {
        Work::Address(word) => Ok(Some(Reach::Global {
            object: *word,
            cells: 0,
        })),
        Work::Copy(register) => Ok(known(held, fixed, *register)),
        Work::Member { pointer, by } => moved_on(known(held, fixed, *pointer), i128::from(*by)),
        Work::Move {
            pointer,
            by: _,
            element,
            back,
        } => moved_by(known(held, fixed, *pointer), amount, *element, *back),
        _ => Ok(None),
    }
}

/// An instruction that moves by this amount puts something into the register that it assigns.
pub fn pass(
    held: &mut Reaches,
    fixed: &[bool],
    amount: Option<i64>,
    act: &Act,
) -> Result<(), AllocError>
    ensures { OnOk result ((constant : ℕ → Option ℤ) → amount ≡ amount_by constant (Some act.now) → (r : ℕ) → known_in held.new fixed.now r ≡ (if assigns_of r (Some act.now) then known_of (known_in held.old fixed.now) constant (Some act.now) else known_in held.old fixed.now r)) }
{
    if let Some(register) = assigned(act) {
        let given = given(held, fixed, amount, act)?;
        held.insert(register, given)?;
    }
    Ok(())
}

/// Nothing but the formals that keep their values is known where a block begins.
pub fn entered(alloc: Global, held: Reaches, begins: bool) -> Reaches
    ensures { (fixed : Items Bool) (r : ℕ) → known_in result fixed r ≡ (if begins then formal_in fixed r else known_in held fixed r) }
{
    if begins { HashMap::new(alloc) } else { held }
}

fn naming(reach: Reach) -> Naming
    ensures { result ≡ naming_by (known_by (Some reach)) }
{
    match reach {
        Reach::Global { object, cells } if cells <= MOST_CELLS => {
            Naming::Named(LockPath::Cell(object.base() + cells as u32))
        }
        Reach::Formal { index, cells } if cells <= MOST_CELLS => {
            Naming::Named(LockPath::Formal {
                index,
                offset: cells as u32,
            })
        }
        _ => Naming::Nowhere,
    }
}

/// The name of a lock to which so much is known of a pointer.
pub fn naming_of(known: Option<Reach>) -> Naming
    ensures { result ≡ naming_by (known_by known) }
{
    match known {
        Some(reach) => naming(reach),
        None => Naming::Unknown,
    }
}
