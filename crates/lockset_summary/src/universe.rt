// The paths that each function knows: those of its own calls of the library, and those of the functions that it calls, as
// it sees them.
ghost use Rattle.std.specs.Prelude.{◌≡◌, ◌<◌, ◌^◌, ◌+◌, ℕ, true, false, List as Listed, length, map, slice_get, slice_index_or, [], IfOk, OnOk, Some};
ghost use Rattle.flow_code.specs.declared.act.Instr.{Instr as Step};
ghost use Rattle.facts.specs.Locks.{with};
ghost use Rattle.facts.specs.Paths.{argument_namings, substituted, names_cell, is_small, are_small_actuals};
ghost use Rattle.facts.specs.Summaries.{Knows, AllListsKnown};
ghost use Rattle.facts.specs.declared.locks.LockPath.{LockPath as Path};
ghost use Rattle.facts.specs.declared.locks.Naming.TheVariants.{Named};
ghost use Rattle.lockset_summary.specs.Rounds.{ForEach, ForThe, room};
ghost use Rattle.lockset_summary.specs.Known.{In, AreKnown, IsTold, IsAllTold, AreAllTold, Adds, row_of, IsSeen, in_both_ways as in_both_ways_of};
ghost use Rattle.lockset_summary.specs.Visits.{IsOrder};

use crate::names::{lock_name, names_at, names_of};
use crate::visits::function_at;
use facts::{Held, LockPath, Naming, add_item, substitute};
use flow_code::{Act, Code, Function};
use lockset_flow::actuals;
use rr_base::List;
use std::alloc::{AllocError, Global};
use sync_objects::Mode;

// Adds a path, and tells whether it wasn't there.
fn add(row: &mut List<LockPath>, path: LockPath) -> Result<bool, AllocError>
    ensures value { OnOk result (row.new ≡ with path row.old) }
    ensures same { IfOk result (λ added. added ≡ false → with path row.old ≡ row.old) }
    ensures longer { IfOk result (λ added. added ≡ true → (length (with path row.old) ≡ length row.old + 1) × (length (with path row.old) < 2 ^ 64)) }
{
    let before = row.len();
    add_item(row, path)?;
    let following = row.len();
    Ok(before < following)
}

// Adds a path that the function knows.
fn put(
    _code: &Code,
    rows: &mut Vec<List<LockPath>>,
    f: usize,
    path: LockPath,
) -> Result<bool, AllocError>
    requires within { f < length rows.old.items }
    requires knows { AreKnown _code.now rows.old.items → Knows _code.now f path }
    ensures { IfOk result (λ added. Adds _code.now (λ r. In r f path) rows.old.items rows.new.items added) }
{
    add(&mut rows[f], path)
}

// Adds the lock that the function names.
fn put_named(
    code: &Code,
    rows: &mut Vec<List<LockPath>>,
    f: usize,
    naming: Naming,
) -> Result<bool, AllocError>
    requires within { f < length rows.old.items }
    requires knows { (q : Path) → naming ≡ Named q → Knows code.now f q }
    ensures { IfOk result (λ added. Adds code.now (λ r. (q : Path) → naming ≡ Named q → In r f q) rows.old.items rows.new.items added) }
{
    match naming {
        Naming::Named(path) => put(code, rows, f, path),
        _ => Ok(false),
    }
}

// Adds a path of a called function, if it can lead to a cell as the function sees it.
fn put_seen(
    code: &Code,
    rows: &mut Vec<List<LockPath>>,
    f: usize,
    seen: Option<LockPath>,
) -> Result<bool, AllocError>
    requires within { f < length rows.old.items }
    requires knows { (q : Path) → seen ≡ Some q → names_cell q ≡ true → Knows code.now f q }
    ensures { IfOk result (λ added. Adds code.now (λ r. (q : Path) → seen ≡ Some q → names_cell q ≡ true → In r f q) rows.old.items rows.new.items added) }
{
    match seen {
        Some(path) if path.names_cell() => put(code, rows, f, path),
        _ => Ok(false),
    }
}

fn path_at(rows: &[List<LockPath>], g: usize, j: usize) -> Option<LockPath>
    ensures { result ≡ slice_get (row_of rows.now g) j }
{
    match rows.get(g) {
        Some(row) => row.get(j).copied(),
        None => None,
    }
}

fn length_of(rows: &[List<LockPath>], g: usize) -> usize
    ensures { result ≡ length (row_of rows.now g) }
{
    match rows.get(g) {
        Some(row) => row.len(),
        None => 0,
    }
}

// Adds the j-th path of a called function.
fn put_called(
    code: &Code,
    rows: &mut Vec<List<LockPath>>,
    f: usize,
    g: usize,
    j: usize,
    actuals: &[Option<LockPath>],
) -> Result<bool, AllocError>
    requires within { f < length rows.old.items }
    requires known { AreKnown code.now rows.old.items }
    requires small { are_small_actuals actuals.now ≡ true }
    requires knows { (p q : Path) → Knows code.now g p → substituted p actuals.now ≡ Some q → names_cell q ≡ true → Knows code.now f q }
    ensures { IfOk result (λ added. Adds code.now (ForThe (Listed (Listed Path)) Path (λ r. row_of r g) (λ i p r. IsSeen f actuals.now p r) j) rows.old.items rows.new.items added) }
{
    match path_at(rows, g, j) {
        Some(path) => put_seen(code, rows, f, substitute(path, actuals)),
        None => Ok(false),
    }
}

// Adds all paths of a called function.
fn put_all_called(
    code: &Code,
    rows: &mut Vec<List<LockPath>>,
    f: usize,
    g: usize,
    actuals: &[Option<LockPath>],
) -> Result<bool, AllocError>
    requires within { f < length rows.old.items }
    requires known { AreKnown code.now rows.old.items }
    requires small { are_small_actuals actuals.now ≡ true }
    requires knows { (p q : Path) → Knows code.now g p → substituted p actuals.now ≡ Some q → names_cell q ≡ true → Knows code.now f q }
    ensures { IfOk result (λ added. Adds code.now (ForEach (Listed (Listed Path)) Path (λ r. row_of r g) (λ i p r. IsSeen f actuals.now p r)) rows.old.items rows.new.items added) }
{
    let mut added = false;
    for j in 0..length_of(rows, g) {
        added |= put_called(code, rows, f, g, j, actuals)?;
    }
    Ok(added)
}

// Adds what the k-th instruction of a function tells.
fn tell(
    alloc: Global,
    code: &Code,
    rows: &mut Vec<List<LockPath>>,
    f: usize,
    k: usize,
    function: &Function,
    names: &[List<Naming>],
) -> Result<bool, AllocError>
    requires within { f < length rows.old.items }
    requires known { AreKnown code.now rows.old.items }
    requires function { slice_get code.now.functions f ≡ Some function.now }
    requires names { names.now ≡ argument_namings function.now }
    requires instr { k < length function.now.instrs }
    ensures { IfOk result (λ added. Adds code.now (ForThe (Listed (Listed Path)) Step (λ r. function.now.instrs) (λ j i r. IsTold f j function.now i r) k) rows.old.items rows.new.items added) }
{
    let arguments = names_at(function, names, k);
    match &function.instrs.at(k).act {
        Act::Library { call, .. } => put_named(code, rows, f, lock_name(call, arguments)),
        Act::Call { function: g, .. } => {
            let actuals = actuals(alloc, arguments)?;
            put_all_called(code, rows, f, *g as usize, actuals.as_slice())
        }
        _ => Ok(false),
    }
}

// Adds what the instructions of a function tell.
fn tell_all(
    alloc: Global,
    code: &Code,
    rows: &mut Vec<List<LockPath>>,
    f: usize,
    function: &Function,
    names: &[List<Naming>],
) -> Result<bool, AllocError>
    requires within { f < length rows.old.items }
    requires known { AreKnown code.now rows.old.items }
    requires function { slice_get code.now.functions f ≡ Some function.now }
    requires names { names.now ≡ argument_namings function.now }
    ensures { IfOk result (λ added. Adds code.now (IsAllTold f function.now) rows.old.items rows.new.items added) }
{
    let mut added = false;
    for k in 0..function.instrs.len() {
        added |= tell(alloc, code, rows, f, k, function, names)?;
    }
    Ok(added)
}

// Goes once over all functions, in this order.
fn round(
    alloc: Global,
    code: &Code,
    order: &[usize],
    rows: &mut Vec<List<LockPath>>,
    names: &[List<List<Naming>>],
) -> Result<bool, AllocError>
    requires order { IsOrder (length code.now.functions) order.now }
    requires known { AreKnown code.now rows.old.items }
    requires names { names.now ≡ map argument_namings code.now.functions }
    ensures { IfOk result (λ added. Adds code.now (AreAllTold code.now) rows.old.items rows.new.items added) }
{
    let mut added = false;
    for k in 0..order.len() {
        let f = function_at(code, order, k);
        added |= tell_all(
            alloc,
            code,
            rows,
            f,
            code.functions.at(f),
            names_of(code, names, f),
        )?;
    }
    Ok(added)
}

// Rounds, until nothing is added.
fn fill(
    alloc: Global,
    code: &Code,
    order: &[usize],
    rows: &mut Vec<List<LockPath>>,
    names: &[List<List<Naming>>],
) -> Result<(), AllocError>
    requires order { IsOrder (length code.now.functions) order.now }
    requires known { AreKnown code.now rows.old.items }
    requires names { names.now ≡ map argument_namings code.now.functions }
    ensures known { OnOk result (AreKnown code.now rows.new.items) }
    ensures told { OnOk result (AreAllTold code.now rows.new.items) }
{
    let mut more = true;
    while more {
        more = round(alloc, code, order, rows, names)?;
    }
    Ok(())
}

// A row for each function.
fn empty_rows(alloc: Global, code: &Code) -> Result<Vec<List<LockPath>>, AllocError>
    ensures { IfOk result (λ rows. AreKnown code.now rows.items) }
{
    let mut rows = Vec::new(alloc);
    for _f in 0..code.functions.len() {
        rows.push(List::new(alloc))?;
    }
    Ok(rows)
}

// Each path, held for reading and held for writing.
#[tactic(auto, using(crate::proofs::BothWays::both_more, crate::proofs::BothWays::both_all))]
fn in_both_ways(alloc: Global, paths: &[LockPath]) -> Result<List<Held>, AllocError>
    ensures { IfOk result (λ locks. locks ≡ in_both_ways_of paths.now) }
{
    let mut locks = List::new(alloc);
    for path in paths {
        locks.push(Held {
            path: *path,
            mode: Mode::Read,
        })?;
        locks.push(Held {
            path: *path,
            mode: Mode::Write,
        })?;
    }
    Ok(locks)
}

// The paths of each row, so held.
#[tactic(auto, using(crate::proofs::Naming::map_more, crate::proofs::Naming::map_all))]
fn all_in_both_ways(alloc: Global, rows: &[List<LockPath>]) -> Result<List<List<Held>>, AllocError>
    ensures { IfOk result (λ tops. tops ≡ map in_both_ways_of rows.now) }
{
    let mut tops = List::new(alloc);
    for row in rows {
        tops.push(in_both_ways(alloc, row.as_slice())?)?;
    }
    Ok(tops)
}

/// The locks that each function knows, held in both ways, in order.
pub fn universe(
    alloc: Global,
    code: &Code,
    order: &[usize],
    names: &[List<List<Naming>>],
) -> Result<List<List<Held>>, AllocError>
    requires order { IsOrder (length code.now.functions) order.now }
    requires names { names.now ≡ map argument_namings code.now.functions }
    ensures { IfOk result (λ tops. AllListsKnown code.now tops) }
{
    let mut rows = empty_rows(alloc, code)?;
    fill(alloc, code, order, &mut rows, names)?;
    all_in_both_ways(alloc, &rows)
}
