// The accesses that each function and those it calls make, with the locks at each.
ghost use Rattle.std.specs.Prelude.{◌≡◌, ◌<◌, ℕ, true, List as Listed, Option as Maybe, length, map, option_map, slice_get, slice_index_or, [], IfOk, OnOk, Some};
ghost use Rattle.flow_code.specs.declared.code.Function.{Function as Routine};
ghost use Rattle.facts.specs.Accesses as accesses;
ghost use Rattle.facts.specs.Locks.{Points, locks_are_small};
ghost use Rattle.facts.specs.Paths.{argument_namings, are_small_actuals};
ghost use Rattle.facts.specs.Summaries.{Guards, guarded_by as guarded_by_of, seen_by, locks_of as locks_at_access, guarded_ascend};
ghost use Rattle.facts.specs.declared.locks.Guarded.{Guarded as Entry};
ghost use Rattle.lockset_summary.specs.Rounds.{ForEach};
ghost use Rattle.lockset_summary.specs.Guarding.{InRow, AreMade, AreReady, IsMetAt, AreAllMetAt, AreAllMet, Makes, accesses_of, IsSeenAccess, store_of as store_in};
ghost use Rattle.lockset_summary.specs.Visits.{IsOrder};

use crate::names::{names_at, names_of};
use crate::rows::insert;
use crate::visits::function_at;
use facts::{Guarded, LockPath, Naming, RelLocks};
use flow_code::{Act, Code};
use lockset_flow::{FlowFacts, actuals};
use rr_base::List;
use std::alloc::{AllocError, Global};
use word_semantics::LibraryCall;

// A number of 32 bits; beyond those, to which no function or instruction comes, it counts as want of memory.
fn number(value: usize) -> Result<u32, AllocError>
    ensures { IfOk result (λ n. n ≡ value) }
{
    match u32::try_from(value) {
        Ok(number) => Ok(number),
        Err(_) => Err(AllocError),
    }
}

// Whether a call of the library stores, if it makes an access.
fn library_store(call: &LibraryCall, arguments: &[u32]) -> Option<bool>
    ensures { result ≡ store_in (accesses.library_access call.now arguments.now) }
{
    match call {
        LibraryCall::Create { .. } | LibraryCall::Join if arguments.len() == 2 => Some(true),
        _ => None,
    }
}

// Whether the instruction stores, if it makes an access.
fn store_of(act: &Act) -> Option<bool>
    ensures { result ≡ store_in (accesses.access_of act.now) }
{
    match act {
        Act::LoadCell { .. } => Some(false),
        Act::StoreCell { .. } => Some(true),
        Act::Library {
            call,
            arguments,
            ..
        } => library_store(call, arguments.as_slice()),
        _ => None,
    }
}

fn guarded_by(
    alloc: Global,
    f: usize,
    k: usize,
    store: bool,
    locks: &RelLocks,
) -> Result<Guarded, AllocError>
    ensures { IfOk result (λ access. access ≡ guarded_by_of f k store locks.now) }
{
    let function = number(f)?;
    let instr = number(k)?;
    let RelLocks { plus, minus } = locks.copied(alloc)?;
    Ok(Guarded {
        function,
        instr,
        store,
        plus,
        minus,
    })
}

// The access of the k-th instruction of a function, if it makes one.
fn own_access(
    alloc: Global,
    f: usize,
    k: usize,
    act: &Act,
    locks: &RelLocks,
) -> Result<Option<Guarded>, AllocError>
    ensures { IfOk result (λ access. access ≡ option_map (λ store. guarded_by_of f k store locks.now) (store_in (accesses.access_of act.now))) }
{
    match store_of(act) {
        Some(store) => {
            let access = guarded_by(alloc, f, k, store, locks)?;
            Ok(Some(access))
        }
        None => Ok(None),
    }
}

// A copy of the locks at an access.
fn locks_of(alloc: Global, access: &Guarded) -> Result<RelLocks, AllocError>
    ensures { IfOk result (λ locks. locks ≡ locks_at_access access.now) }
{
    let plus = access.plus.copied(alloc)?;
    let minus = access.minus.copied(alloc)?;
    Ok(RelLocks { plus, minus })
}

// An access of a called function, as a caller sees it that holds these locks.
fn seen(
    alloc: Global,
    access: &Guarded,
    actuals: &[Option<LockPath>],
    locks: &RelLocks,
) -> Result<Guarded, AllocError>
    requires callee { locks_are_small (locks_at_access access.now) ≡ true }
    requires actuals { are_small_actuals actuals.now ≡ true }
    ensures { IfOk result (λ seen. seen ≡ seen_by actuals.now locks.now access.now) }
{
    let callee = locks_of(alloc, access)?;
    let RelLocks { plus, minus } = locks.through(alloc, actuals, &callee)?;
    Ok(Guarded {
        function: access.function,
        instr: access.instr,
        store: access.store,
        plus,
        minus,
    })
}

// The j-th access of a called function, as a caller sees it.
fn seen_at(
    alloc: Global,
    rows: &[List<Guarded>],
    g: usize,
    j: usize,
    actuals: &[Option<LockPath>],
    locks: &RelLocks,
) -> Result<Option<Guarded>, AllocError>
    requires callee { (b : Entry) → slice_get (accesses_of rows.now g) j ≡ Some b → locks_are_small (locks_at_access b) ≡ true }
    requires actuals { are_small_actuals actuals.now ≡ true }
    ensures { IfOk result (λ access. access ≡ option_map (seen_by actuals.now locks.now) (slice_get (accesses_of rows.now g) j)) }
{
    let Some(row) = rows.get(g) else {
        return Ok(None);
    };
    let Some(access) = row.get(j) else {
        return Ok(None);
    };
    let made = seen(alloc, access, actuals, locks)?;
    Ok(Some(made))
}

fn length_of(rows: &[List<Guarded>], g: usize) -> usize
    ensures { result ≡ length (accesses_of rows.now g) }
{
    match rows.get(g) {
        Some(row) => row.len(),
        None => 0,
    }
}

// Adds an access that the function or one that it calls makes.
fn put(
    _code: &Code,
    _points: &[FlowFacts],
    rows: &mut Vec<List<Guarded>>,
    f: usize,
    access: Guarded,
) -> Result<bool, AllocError>
    requires within { f < length rows.old.items }
    requires sound { AreMade _code.now _points.now rows.old.items }
    requires makes { Guards _code.now _points.now f access }
    ensures { IfOk result (λ added. Makes _code.now _points.now (λ r. InRow r f access) rows.old.items rows.new.items added) }
{
    insert(&mut rows[f], access)
}

// Adds an access, if there is one.
fn put_if(
    code: &Code,
    points: &[FlowFacts],
    rows: &mut Vec<List<Guarded>>,
    f: usize,
    access: Option<Guarded>,
) -> Result<bool, AllocError>
    requires within { f < length rows.old.items }
    requires sound { AreMade code.now points.now rows.old.items }
    requires makes { (a : Entry) → access ≡ Some a → Guards code.now points.now f a }
    ensures { IfOk result (λ added. Makes code.now points.now (λ r. (a : Entry) → access ≡ Some a → InRow r f a) rows.old.items rows.new.items added) }
{
    match access {
        Some(access) => put(code, points, rows, f, access),
        None => Ok(false),
    }
}

// Adds the accesses of a called function, as a function that holds these locks sees them.
fn put_called(
    alloc: Global,
    code: &Code,
    points: &[FlowFacts],
    rows: &mut Vec<List<Guarded>>,
    f: usize,
    g: usize,
    actuals: &[Option<LockPath>],
    locks: &RelLocks,
) -> Result<bool, AllocError>
    requires within { f < length rows.old.items }
    requires sound { AreMade code.now points.now rows.old.items }
    requires ready { AreReady code.now points.now }
    requires small { are_small_actuals actuals.now ≡ true }
    requires makes { (b : Entry) → Guards code.now points.now g b → Guards code.now points.now f (seen_by actuals.now locks.now b) }
    ensures { IfOk result (λ added. Makes code.now points.now (ForEach (Listed (Listed Entry)) Entry (λ r. accesses_of r g) (λ i b r. IsSeenAccess f actuals.now locks.now b r)) rows.old.items rows.new.items added) }
{
    let mut added = false;
    for j in 0..length_of(rows, g) {
        let access = seen_at(alloc, rows, g, j, actuals, locks)?;
        added |= put_if(code, points, rows, f, access)?;
    }
    Ok(added)
}

// The locks before the k-th instruction of a function.
fn locks_at(points: &[FlowFacts], f: usize, k: usize) -> &RelLocks
    requires function { f < length points.now }
    requires instr { (x : Points) → slice_get points.now f ≡ Some x → k < length x.before }
    ensures { (x : Points) → slice_get points.now f ≡ Some x → slice_get x.before k ≡ Some result.now }
{
    let before = points[f].before();
    &before[k]
}

// Adds the accesses of the k-th instruction of a function.
fn meet(
    alloc: Global,
    code: &Code,
    names: &[List<List<Naming>>],
    points: &[FlowFacts],
    rows: &mut Vec<List<Guarded>>,
    f: usize,
    k: usize,
) -> Result<bool, AllocError>
    requires sound { AreMade code.now points.now rows.old.items }
    requires ready { AreReady code.now points.now }
    requires names { names.now ≡ map argument_namings code.now.functions }
    requires function { f < length code.now.functions }
    requires instr { (fn : Routine) → slice_get code.now.functions f ≡ Some fn → k < length fn.instrs }
    ensures { IfOk result (λ added. Makes code.now points.now (IsMetAt code.now points.now f k) rows.old.items rows.new.items added) }
{
    let function = code.functions.at(f);
    let act = &function.instrs.at(k).act;
    let locks = locks_at(points, f, k);
    match act {
        Act::Call { function: g, .. } => {
            let actuals = actuals(alloc, names_at(function, names_of(code, names, f), k))?;
            put_called(
                alloc,
                code,
                points,
                rows,
                f,
                *g as usize,
                actuals.as_slice(),
                locks,
            )
        }
        _ => {
            let access = own_access(alloc, f, k, act, locks)?;
            put_if(code, points, rows, f, access)
        }
    }
}

// Adds the accesses of the instructions of a function.
fn meet_all(
    alloc: Global,
    code: &Code,
    names: &[List<List<Naming>>],
    points: &[FlowFacts],
    rows: &mut Vec<List<Guarded>>,
    f: usize,
) -> Result<bool, AllocError>
    requires sound { AreMade code.now points.now rows.old.items }
    requires ready { AreReady code.now points.now }
    requires names { names.now ≡ map argument_namings code.now.functions }
    requires function { f < length code.now.functions }
    ensures { IfOk result (λ added. Makes code.now points.now (AreAllMetAt code.now points.now f) rows.old.items rows.new.items added) }
{
    let mut added = false;
    for k in 0..code.functions.at(f).instrs.len() {
        added |= meet(alloc, code, names, points, rows, f, k)?;
    }
    Ok(added)
}

// Goes once over all functions, in this order.
fn round(
    alloc: Global,
    code: &Code,
    order: &[usize],
    names: &[List<List<Naming>>],
    points: &[FlowFacts],
    rows: &mut Vec<List<Guarded>>,
) -> Result<bool, AllocError>
    requires order { IsOrder (length code.now.functions) order.now }
    requires sound { AreMade code.now points.now rows.old.items }
    requires ready { AreReady code.now points.now }
    requires names { names.now ≡ map argument_namings code.now.functions }
    ensures { IfOk result (λ added. Makes code.now points.now (AreAllMet code.now points.now) rows.old.items rows.new.items added) }
{
    let mut added = false;
    for k in 0..order.len() {
        let f = function_at(code, order, k);
        added |= meet_all(alloc, code, names, points, rows, f)?;
    }
    Ok(added)
}

// Rounds, until nothing is added.
fn fill(
    alloc: Global,
    code: &Code,
    order: &[usize],
    names: &[List<List<Naming>>],
    points: &[FlowFacts],
    rows: &mut Vec<List<Guarded>>,
) -> Result<(), AllocError>
    requires order { IsOrder (length code.now.functions) order.now }
    requires sound { AreMade code.now points.now rows.old.items }
    requires ready { AreReady code.now points.now }
    requires names { names.now ≡ map argument_namings code.now.functions }
    ensures sound { OnOk result (AreMade code.now points.now rows.new.items) }
    ensures met { OnOk result (AreAllMet code.now points.now rows.new.items) }
{
    let mut more = true;
    while more {
        more = round(alloc, code, order, names, points, rows)?;
    }
    Ok(())
}

// A row for each function.
fn empty_rows(alloc: Global, code: &Code) -> Result<Vec<List<Guarded>>, AllocError>
    ensures { IfOk result (λ rows. (xs : Listed Points) → AreMade code.now xs rows.items) }
{
    let mut rows = Vec::new(alloc);
    for _f in 0..code.functions.len() {
        rows.push(List::new(alloc))?;
    }
    Ok(rows)
}

/// The accesses that each function and those it calls make, in order, where these are the locks at all points.
pub fn guarded(
    alloc: Global,
    code: &Code,
    order: &[usize],
    names: &[List<List<Naming>>],
    points: &[FlowFacts],
) -> Result<Vec<List<Guarded>>, AllocError>
    requires order { IsOrder (length code.now.functions) order.now }
    requires ready { AreReady code.now points.now }
    requires names { names.now ≡ map argument_namings code.now.functions }
    ensures sound { IfOk result (λ rows. AreMade code.now points.now rows.items) }
    ensures met { IfOk result (λ rows. AreAllMet code.now points.now rows.items) }
{
    let mut rows = empty_rows(alloc, code)?;
    fill(alloc, code, order, names, points, &mut rows)?;
    Ok(rows)
}
