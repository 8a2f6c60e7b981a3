//! The cells of globals: the pointer to each, and the words as which they start (C99 6.6, 6.7.8).
ghost use Rattle.std.specs.Prelude.{◌≡◌, ◌+◌, ◌++◌, [], true, IfOk, OnOk, map, replicate};
ghost use Rattle.rr_base.specs.Words.{pack};
ghost use Rattle.c_tree.specs.Tree.{listed_inits, plain};
ghost use Rattle.c_tree.specs.View.{declared_of, exp_of, init_of, object_of};
ghost use Rattle.c_programs.specs.Declarators.{declared_type};
ghost use Rattle.c_programs.specs.Initials.{part_at, part_type};
ghost use Rattle.rr_base.specs.Texts.{entry_of};
ghost use Rattle.c_types.specs.Scopes.{function_numbered, with_name};
ghost use Rattle.c_types.specs.Shown.{shown_maybe};
ghost use Rattle.c_spots.specs.SpotViews.{shown_holder, shown_spots};
ghost use Rattle.c_programs.specs.Statements.{after_declared, after_objects};
ghost use Rattle.c_names.specs.Table.{known_of};
ghost use Rattle.c_globals.specs.Globals as spec;
ghost use Rattle.c_operators.specs.Views.{globals_of, source_in};

use c_constants::is_constant;
use c_initials::kinds_of_some;
use c_names::{Table, declared_name};
use c_operators::{Source, function_word};
use c_programs::{copy_of, declare_object, declared_type, part_at, ref_of};
use c_rules::value_of;
use c_spots::{Holder, Spot};
use c_tree::{Declarator, Expr, Initial, Item, Specifier};
use c_types::{Names, TypeRef};
use indexmap::IndexMap;
use rr_base::{CellKind, List, PtrWord, Site, sum};
use std::alloc::{AllocError, Global};

/// The pointer to the first cell of an object. One whose parts don't fit into a word is no object of a machine.
fn object_word(site: u16, base: u32, cells: u32) -> Result<u64, AllocError>
    ensures { IfOk result (λ w. w ≡ pack site base cells 0) }
{
    match u16::try_from(cells) {
        Ok(cells) if 0 < site && site < 1024 && base < 1 << 22 => {
            Ok(PtrWord::pack(site, base, cells, 0).word())
        }
        _ => Err(AllocError),
    }
}

/// A global is known by its name. One that is there stays.
fn put_named<'a>(
    globals: &mut IndexMap<&'a [u8], u64>,
    name: &'a [u8],
    address: u64,
) -> Result<(), AllocError>
    ensures { OnOk result (globals_of globals.new ≡ with_name (globals_of globals.old) name.now address) }
{
    match globals.get(name) {
        Some(_) => Ok(()),
        None => {
            globals.insert(name, address)?;
            Ok(())
        }
    }
}

fn put_global<'a>(
    globals: &mut IndexMap<&'a [u8], u64>,
    holder: Holder<'a>,
    address: u64,
) -> Result<(), AllocError>
    ensures { OnOk result (globals_of globals.new ≡ spec.with_global (shown_holder holder.entry) address (globals_of globals.old)) }
{
    match holder {
        Holder::Global(name) => put_named(globals, name, address),
        Holder::Local(_, _) | Holder::Allocation => Ok(()),
    }
}

fn holder_cells(holder: Holder, cells: u32) -> u32
    ensures { result ≡ spec.holder_cells (shown_holder holder.entry) cells }
{
    match holder {
        Holder::Global(_) => cells,
        Holder::Local(_, _) | Holder::Allocation => 0,
    }
}

/// The number of the next site. More of them than 16 bits can count don't fit a word.
fn next_site(site: u16) -> Result<u16, AllocError>
    ensures { IfOk result (λ n. n ≡ site + 1) }
{
    match site.checked_add(1) {
        Some(next) => Ok(next),
        None => Err(AllocError),
    }
}

/// The globals of a source, by its spots and their sites.
pub fn globals_in<'a>(
    alloc: Global,
    spots: &[Spot<'a>],
    sites: &[Site],
) -> Result<IndexMap<&'a [u8], u64>, AllocError>
    ensures { IfOk result (λ g. globals_of g ≡ spec.globals_after 1 0 [] (shown_spots spots.now) sites.now) }
{
    let mut globals = IndexMap::new(alloc);
    let mut site: u16 = 1;
    let mut base: u32 = 0;
    let mut spots = spots;
    let mut sites = sites;
    while let [spot, more_spots @ ..] = spots {
        let [first, more_sites @ ..] = sites else {
            return Ok(globals);
        };
        let cells = first.layout.size;
        put_global(&mut globals, spot.holder, object_word(site, base, cells)?)?;
        base = sum(base, holder_cells(spot.holder, cells))?;
        site = next_site(site)?;
        spots = more_spots;
        sites = more_sites;
    }
    Ok(globals)
}

/// The kinds of a global's cells.
fn push_kinds(
    holder: Holder,
    kinds: &[CellKind],
    out: &mut List<CellKind>,
) -> Result<(), AllocError>
    ensures { OnOk result (out.new ≡ out.old ++ spec.holder_kinds (shown_holder holder.entry) kinds.now) }
{
    match holder {
        Holder::Global(_) => out.extend_from_slice(kinds),
        Holder::Local(_, _) | Holder::Allocation => Ok(()),
    }
}

/// The kind of each global cell.
pub fn global_kinds(
    alloc: Global,
    spots: &[Spot],
    sites: &[Site],
) -> Result<List<CellKind>, AllocError>
    ensures { IfOk result (λ ks. ks ≡ spec.global_kinds (shown_spots spots.now) sites.now) }
{
    let mut kinds = List::new(alloc);
    let mut spots = spots;
    let mut sites = sites;
    while let [spot, more_spots @ ..] = spots {
        let [first, more_sites @ ..] = sites else {
            return Ok(kinds);
        };
        push_kinds(spot.holder, first.layout.kinds.as_slice(), &mut kinds)?;
        spots = more_spots;
        sites = more_sites;
    }
    Ok(kinds)
}

fn holder_base(holder: Holder, base: u32) -> Option<u32>
    ensures { result ≡ spec.holder_base (shown_holder holder.entry) base }
{
    match holder {
        Holder::Global(_) => Some(base),
        Holder::Local(_, _) | Holder::Allocation => None,
    }
}

/// The first cell of each spot's global; none of a spot that is no global.
pub fn global_bases(
    alloc: Global,
    spots: &[Spot],
    sites: &[Site],
) -> Result<List<Option<u32>>, AllocError>
    ensures { IfOk result (λ bs. bs ≡ spec.global_bases 0 (shown_spots spots.now) sites.now) }
{
    let mut bases = List::new(alloc);
    let mut base: u32 = 0;
    let mut spots = spots;
    let mut sites = sites;
    while let [spot, more_spots @ ..] = spots {
        let [first, more_sites @ ..] = sites else {
            return Ok(bases);
        };
        bases.push(holder_base(spot.holder, base))?;
        base = sum(base, holder_cells(spot.holder, first.layout.size))?;
        spots = more_spots;
        sites = more_sites;
    }
    Ok(bases)
}

/// The pointer to a global or a function, by its name.
fn named_word(source: &Source, name: &[u8]) -> Result<u64, AllocError>
    ensures { IfOk result (λ w. w ≡ spec.named_word (entry_of (source_in source.now).globals name.now) (function_numbered (source_in source.now).whole name.now)) }
{
    match source.globals.get(name) {
        Some(address) => Ok(*address),
        None => {
            let word = function_word(source.whole.function_numbered(name))?;
            Ok(u64::from(word))
        }
    }
}

/// A global array, what `&` is applied to, or a function; else null.
fn address_word(source: &Source, e: &Expr) -> Result<u64, AllocError>
    ensures { IfOk result (λ w. w ≡ spec.address_word (source_in source.now) (exp_of e.now)) }
{
    match e {
        Expr::Name { name, .. } => named_word(source, name.as_slice()),
        Expr::Prefix { operand, .. } => address_word(source, operand),
        Expr::Paren { inner, .. } => address_word(source, inner),
        _ => Ok(0),
    }
}

fn constant_word<N: Names>(source: &Source, names: &N, e: &Expr) -> Result<u64, AllocError>
    ensures { IfOk result (λ w. w ≡ spec.constant_word (source_in source.now) (N.known names.now) (exp_of e.now)) }
{
    if is_constant(e) {
        match value_of(names, e) {
            Ok(number) => Ok(number.cast_unsigned()),
            Err(_) => Ok(0),
        }
    } else {
        address_word(source, e)
    }
}

fn push_zeros(many: usize, out: &mut List<u64>) -> Result<(), AllocError>
    ensures { OnOk result (out.new ≡ out.old ++ replicate many 0) }
{
    for _cell in 0..many {
        out.push(0)?;
    }
    Ok(())
}

/// Words of 0 after these, until there are so many.
fn pad(many: usize, words: &mut List<u64>) -> Result<(), AllocError>
    ensures { OnOk result (words.new ≡ spec.padded many words.old) }
{
    let padding = many.saturating_sub(words.len());
    push_zeros(padding, words)
}

fn type_of_part<'h>(table: &'h Table, of: Option<TypeRef<'h>>, index: usize) -> Option<TypeRef<'h>>
    ensures { shown_maybe result ≡ part_type (part_at (known_of table.now) (shown_maybe of.entry) index) }
{
    part_at(table, of, index)?
}

/// The words of a part of the type.
#[cycle(start_words)]
fn push_start<'h>(
    alloc: Global,
    source: &Source,
    table: &'h Table,
    of: Option<TypeRef<'h>>,
    initial: &Initial,
    out: &mut List<u64>,
) -> Result<(), AllocError>
    ensures { OnOk result (out.new ≡ out.old ++ spec.start_words (source_in source.now) (known_of table.now) (shown_maybe of.entry) (init_of initial.now)) }
{
    match initial {
        Initial::Value(e) => {
            let word = constant_word(source, table, e)?;
            out.push(word)
        }
        Initial::Braces { parts, .. } => {
            let many = kinds_of_some(alloc, source, of)?.len();
            let mut words = List::new(alloc);
            push_parts(alloc, source, table, of, parts.as_slice(), &mut words)?;
            pad(many, &mut words)?;
            out.extend_from_slice(words.as_slice())
        }
        Initial::Mutex { .. } | Initial::Cond { .. } | Initial::RwLock { .. } => out.push(0),
    }
}

#[cycle(start_words)]
fn push_parts<'h>(
    alloc: Global,
    source: &Source,
    table: &'h Table,
    of: Option<TypeRef<'h>>,
    parts: &[Initial],
    out: &mut List<u64>,
) -> Result<(), AllocError>
    ensures { OnOk result (out.new ≡ out.old ++ spec.parts_words (source_in source.now) (known_of table.now) (shown_maybe of.entry) 0 (listed_inits (map init_of parts.now))) }
{
    for (index, part) in parts.iter().enumerate() {
        let of_part = type_of_part(table, of, index);
        push_start(alloc, source, table, of_part, part, out)?;
    }
    Ok(())
}

fn push_plain<'a>(
    alloc: Global,
    source: &Source,
    table: &mut Table<'a>,
    specifier: &Specifier,
    declarator: &'a Declarator,
    out: &mut List<u64>,
) -> Result<(), AllocError>
    ensures known { OnOk result (known_of table.new ≡ after_declared (known_of table.old) true specifier.now (declared_of declarator.now)) }
    ensures out { OnOk result (out.new ≡ out.old ++ spec.object_words (source_in source.now) (known_of table.old) specifier.now (plain (declared_of declarator.now))) }
{
    let of = declared_type(alloc, &*table, specifier, declarator)?;
    push_zeros(kinds_of_some(alloc, source, ref_of(&of))?.len(), out)?;
    declare_object(table, true, declared_name(declarator), of)
}

fn push_initialised<'a>(
    alloc: Global,
    source: &Source,
    table: &mut Table<'a>,
    specifier: &Specifier,
    declarator: &'a Declarator,
    initial: &Initial,
    out: &mut List<u64>,
) -> Result<(), AllocError>
    ensures known { OnOk result (known_of table.new ≡ after_declared (known_of table.old) true specifier.now (declared_of declarator.now)) }
    ensures out { OnOk result (out.new ≡ out.old ++ spec.start_words (source_in source.now) (after_declared (known_of table.old) true specifier.now (declared_of declarator.now)) (declared_type (known_of table.old) specifier.now (declared_of declarator.now)) (init_of initial.now)) }
{
    let of = declared_type(alloc, &*table, specifier, declarator)?;
    let kept = copy_of(alloc, &of)?;
    declare_object(table, true, declared_name(declarator), of)?;
    push_start(alloc, source, &*table, ref_of(&kept), initial, out)
}

/// The words of globals of one specifier.
pub fn push_objects<'a>(
    alloc: Global,
    source: &Source,
    table: &mut Table<'a>,
    specifier: &Specifier,
    items: &'a [Item],
    out: &mut List<u64>,
) -> Result<(), AllocError>
    ensures known { OnOk result (known_of table.new ≡ after_objects (known_of table.old) true specifier.now (map object_of items.now)) }
    ensures out { OnOk result (out.new ≡ out.old ++ spec.objects_words (source_in source.now) (known_of table.old) specifier.now (map object_of items.now)) }
{
    for item in items {
        match item {
            Item::Plain(declarator) => {
                push_plain(alloc, source, table, specifier, declarator, out)?;
            }
            Item::Initialised {
                declarator,
                initial,
                ..
            } => push_initialised(alloc, source, table, specifier, declarator, initial, out)?,
        }
    }
    Ok(())
}
