//! What has cells of its own: a global, a local or formal that is kept in cells, what a `malloc` gives.
#![tactic(auto, using(crate::proofs::Spotted::spotted))]

ghost use Rattle.std.specs.Prelude.{◌≡◌, ◌++◌, IfOk, OnOk};
ghost use Rattle.c_spots.specs.Spots as spec;
ghost use Rattle.c_spots.specs.SpotViews.{shown_holder, shown_spots, shown_where};
ghost use Rattle.c_types.specs.Shown.{shown_type, shown_target};

use c_locals::Marks;
use c_programs::{copy_of, put_pointers};
use c_rules::name_place;
use c_tree::Name;
use c_types::{ObjectType, Target, TypeRef};
use rr_base::{List, Position};
use std::alloc::{AllocError, Global};

/// What holds cells.
#[derive(Clone, Copy)]
pub enum Holder<'a> {
    Global(&'a [u8]),
    /// A local or a formal, by the names of its function and its own.
    Local(&'a [u8], &'a [u8]),
    Allocation,
}

/// What holds cells, at its place, with its type, where that has no fault.
#[derive(Drop)]
pub struct Spot<'a> {
    pub holder: Holder<'a>,
    pub at: Position,
    pub of: Option<ObjectType>,
}

/// A function by its name, with the numbers to which `&` is applied.
#[derive(Clone, Copy)]
pub struct Owner<'a> {
    pub name: &'a [u8],
    pub marks: &'a Marks,
}

/// Where an object is declared.
#[derive(Clone, Copy)]
pub enum Where<'a> {
    FileLevel,
    InFunction(Owner<'a>),
}

impl<'a> Where<'a> {
    /// Whether it is outside of functions.
    pub fn is_global(self) -> bool
        ensures { result ≡ spec.is_global_level (shown_where self.entry) }
    {
        match self {
            Where::FileLevel => true,
            Where::InFunction(_) => false,
        }
    }

    /// Whether the object of this number is kept in cells.
    pub fn keeps(self, number: usize, by_type: bool) -> bool
        ensures { result ≡ spec.is_cell_in (shown_where self.entry) number by_type }
    {
        match self {
            Where::FileLevel => true,
            Where::InFunction(owner) => by_type || owner.marks.holds(number),
        }
    }

    /// The object of this name.
    pub fn holder(self, name: &'a [u8]) -> Holder<'a>
        ensures { shown_holder result ≡ spec.holder_in (shown_where self.entry) name.now }
    {
        match self {
            Where::FileLevel => Holder::Global(name),
            Where::InFunction(owner) => Holder::Local(owner.name, name),
        }
    }
}

/// Adds the object of the name, if it is kept in cells.
pub fn push_kept<'a>(
    alloc: Global,
    is_kept: bool,
    holder: Holder<'a>,
    name: &Name,
    of: &Option<ObjectType>,
    out: &mut List<Spot<'a>>,
) -> Result<(), AllocError>
    ensures { OnOk result (shown_spots out.new ≡ shown_spots out.old ++ spec.where_kept is_kept (spec.spot_named (shown_holder holder.entry) name.now of.now)) }
{
    if !is_kept {
        return Ok(());
    }
    let of = copy_of(alloc, of)?;
    out.push(Spot {
        holder,
        at: name_place(name),
        of,
    })
}

/// The type that a borrowed one shows.
pub fn object_of(alloc: Global, of: TypeRef) -> Result<ObjectType, AllocError>
    ensures { IfOk result (λ t. t ≡ shown_type of.entry) }
{
    let mut layers = List::new(alloc);
    put_pointers(&mut layers, of.stars)?;
    layers.extend_from_slice(of.layers)?;
    Ok(ObjectType {
        layers,
        base: of.base,
    })
}

fn type_of_target(alloc: Global, target: Target) -> Result<Option<ObjectType>, AllocError>
    ensures { IfOk result (λ t. t ≡ spec.type_of_target (shown_target target.entry)) }
{
    match target {
        Target::No => Ok(None),
        Target::Some => Ok(None),
        Target::Of(of) => {
            let of = object_of(alloc, of)?;
            Ok(Some(of))
        }
    }
}

/// Adds what a `malloc` gives, if the call is one.
pub fn push_allocation(
    alloc: Global,
    is_malloc: bool,
    target: Target,
    at: Position,
    out: &mut List<Spot>,
) -> Result<(), AllocError>
    ensures { OnOk result (shown_spots out.new ≡ shown_spots out.old ++ spec.where_malloc is_malloc (shown_target target.entry) at) }
{
    if !is_malloc {
        return Ok(());
    }
    let of = type_of_target(alloc, target)?;
    out.push(Spot {
        holder: Holder::Allocation,
        at,
        of,
    })
}
