//! Rounds in which numbers are added to the sets of nodes, until all constraints are met.
ghost use Rattle.std.specs.Prelude.{◌≡◌, ◌<◌, ◌≤◌, ◌+◌, ◌/◌, ◌^◌, ℕ, pos, ◌*ℤ◌, List, length, slice_get, Some, IfOk, OnOk, true, false, Bool};
ghost use Rattle.std.specs.List.{Contains};
ghost use Rattle.word_semantics.specs.Pointers.{directed};
ghost use Rattle.facts.specs.declared.constraint.Node.TheVariants.{Cells};
ghost use Rattle.facts.specs.PointsTo.{MayPoint, place_on, place, element_of as element_at, constraints_of};
ghost use Rattle.points_to.specs.Ascending.{widths, rooms};
ghost use Rattle.points_to.specs.Nodes.{number_of as number_for, place_from, node_row, Has, widths_of, IsNode, IsPlace, AreThere};
ghost use Rattle.points_to.specs.Filling.{Fine, AreFine, Adds, GivesAll, ForAll, ForFirst, ForOne, Holds, number_on, Reaches, IsSwept, Meets, MeetsAll};

use crate::agenda::Agenda;
use crate::nodes::{classes_of, element_of, moved, number_of, place_at, spot_of};
use crate::sets::Sets;
use facts::{Constraint, Node};
use flow_code::Code;
use std::alloc::{AllocError, Global};

/// A number of elements of so many cells, forwards or back.
#[derive(Clone, Copy, Debug)]
struct Step {
    by: i64,
    element: u32,
    back: bool,
}

/// The k-th number of a node's row.
fn number_at(code: &Code, sets: &Sets, node: Node, k: usize) -> Option<u16>
    requires { length code.now.functions ≤ 2 ^ 20 }
    ensures { result ≡ slice_get (node_row (length code.now.functions) sets.now node) k }
{
    sets.get(spot_of(code, node), k)
}

fn len_of(code: &Code, sets: &Sets, node: Node) -> usize
    requires { length code.now.functions ≤ 2 ^ 20 }
    ensures { result ≡ length (node_row (length code.now.functions) sets.now node) }
{
    sets.len_of(spot_of(code, node))
}

/// Adds a number that may be there.
fn put(code: &Code, sets: &mut Sets, node: Node, p: u16) -> Result<bool, AllocError>
    requires few { length code.now.functions ≤ 2 ^ 20 }
    requires wide { widths sets.old ≡ widths_of code.now }
    requires node { IsNode code.now node }
    requires fine { AreFine code.now sets.old → Fine code.now node p }
    ensures { IfOk result (λ added. Adds code.now (λ b. Has (length code.now.functions) b node p) sets.old sets.new added) }
{
    sets.add(spot_of(code, node), p)
}

/// Puts the k-th number of one row into another.
fn copy_at(code: &Code, sets: &mut Sets, from: Node, k: usize, to: Node) -> Result<bool, AllocError>
    requires few { length code.now.functions ≤ 2 ^ 20 }
    requires wide { widths sets.old ≡ widths_of code.now }
    requires from { IsNode code.now from }
    requires to { IsNode code.now to }
    requires gives { GivesAll code.now from to }
    ensures { IfOk result (λ added. Adds code.now (ForOne code.now k from (λ p r. Has (length code.now.functions) r to p)) sets.old sets.new added) }
{
    match number_at(code, &*sets, from, k) {
        Some(p) => put(code, sets, to, p),
        None => Ok(false),
    }
}

/// Puts what one row has into another.
fn copy(code: &Code, sets: &mut Sets, from: Node, to: Node) -> Result<bool, AllocError>
    requires few { length code.now.functions ≤ 2 ^ 20 }
    requires wide { widths sets.old ≡ widths_of code.now }
    requires from { IsNode code.now from }
    requires to { IsNode code.now to }
    requires gives { GivesAll code.now from to }
    ensures { IfOk result (λ added. Adds code.now (Holds code.now from to) sets.old sets.new added) }
{
    let mut added = false;
    for k in 0..len_of(code, &*sets, from) {
        added |= copy_at(code, sets, from, k, to)?;
    }
    Ok(added)
}

/// Puts the place so many cells on.
fn shift_at(
    code: &Code,
    sets: &mut Sets,
    from: Node,
    k: usize,
    to: Node,
    step: Step,
) -> Result<bool, AllocError>
    requires there { AreThere code.now }
    requires wide { widths sets.old ≡ widths_of code.now }
    requires fine { AreFine code.now sets.old }
    requires from { IsNode code.now from }
    requires to { IsNode code.now to }
    requires gives { (p : ℕ) → Fine code.now from p → MayPoint code.now to (place_on code.now.sites (place_from p) (directed step.back step.by *ℤ pos step.element)) }
    ensures { IfOk result (λ added. Adds code.now (ForOne code.now k from (λ p r. Has (length code.now.functions) r to (number_on code.now step.by step.element step.back p))) sets.old sets.new added) }
{
    match number_at(code, &*sets, from, k) {
        Some(p) => {
            let q = moved(code.sites.as_slice(), p, step.by, step.element, step.back);
            put(code, sets, to, q)
        }
        None => Ok(false),
    }
}

fn shift(code: &Code, sets: &mut Sets, from: Node, to: Node, step: Step) -> Result<bool, AllocError>
    requires there { AreThere code.now }
    requires wide { widths sets.old ≡ widths_of code.now }
    requires fine { AreFine code.now sets.old }
    requires from { IsNode code.now from }
    requires to { IsNode code.now to }
    requires gives { (p : ℕ) → Fine code.now from p → MayPoint code.now to (place_on code.now.sites (place_from p) (directed step.back step.by *ℤ pos step.element)) }
    ensures { IfOk result (λ added. Adds code.now (ForAll code.now from (λ p r. Has (length code.now.functions) r to (number_on code.now step.by step.element step.back p))) sets.old sets.new added) }
{
    let mut added = false;
    for k in 0..len_of(code, &*sets, from) {
        added |= shift_at(code, sets, from, k, to, step)?;
    }
    Ok(added)
}

/// Puts all places to which some number of steps leads from one.
fn sweep_from(
    code: &Code,
    sets: &mut Sets,
    p: u16,
    to: Node,
    stride: u32,
) -> Result<bool, AllocError>
    requires there { AreThere code.now }
    requires wide { widths sets.old ≡ widths_of code.now }
    requires place { IsPlace code.now.sites (place_from p) }
    requires to { IsNode code.now to }
    requires gives { (class : ℕ) → Reaches code.now stride p class → MayPoint code.now to (place (p / 64) class) }
    ensures { IfOk result (λ added. Adds code.now (IsSwept code.now to stride p) sets.old sets.new added) }
{
    let place = place_at(p);
    let element = element_of(code.sites.as_slice(), place.site);
    if stride % element == 0 {
        return put(code, sets, to, p);
    }
    let mut added = false;
    for class in 0..classes_of(element) {
        added |= put(code, sets, to, place.site * 64 + class)?;
    }
    Ok(added)
}

fn sweep_at(
    code: &Code,
    sets: &mut Sets,
    from: Node,
    k: usize,
    to: Node,
    stride: u32,
) -> Result<bool, AllocError>
    requires there { AreThere code.now }
    requires wide { widths sets.old ≡ widths_of code.now }
    requires fine { AreFine code.now sets.old }
    requires from { IsNode code.now from }
    requires to { IsNode code.now to }
    requires gives { (p class : ℕ) → Fine code.now from p → Reaches code.now stride p class → MayPoint code.now to (place (p / 64) class) }
    ensures { IfOk result (λ added. Adds code.now (ForOne code.now k from (IsSwept code.now to stride)) sets.old sets.new added) }
{
    match number_at(code, &*sets, from, k) {
        Some(p) => sweep_from(code, sets, p, to, stride),
        None => Ok(false),
    }
}

fn sweep(
    code: &Code,
    sets: &mut Sets,
    from: Node,
    to: Node,
    stride: u32,
) -> Result<bool, AllocError>
    requires there { AreThere code.now }
    requires wide { widths sets.old ≡ widths_of code.now }
    requires fine { AreFine code.now sets.old }
    requires from { IsNode code.now from }
    requires to { IsNode code.now to }
    requires gives { (p class : ℕ) → Fine code.now from p → Reaches code.now stride p class → MayPoint code.now to (place (p / 64) class) }
    ensures { IfOk result (λ added. Adds code.now (ForAll code.now from (IsSwept code.now to stride)) sets.old sets.new added) }
{
    let mut added = false;
    for k in 0..len_of(code, &*sets, from) {
        added |= sweep_at(code, sets, from, k, to, stride)?;
    }
    Ok(added)
}

fn load_at(
    code: &Code,
    sets: &mut Sets,
    through: Node,
    k: usize,
    into: Node,
) -> Result<bool, AllocError>
    requires few { length code.now.functions ≤ 2 ^ 20 }
    requires wide { widths sets.old ≡ widths_of code.now }
    requires fine { AreFine code.now sets.old }
    requires through { IsNode code.now through }
    requires into { IsNode code.now into }
    requires gives { (o p : ℕ) → Fine code.now through o → MayPoint code.now (Cells (place_from o)) (place_from p) → MayPoint code.now into (place_from p) }
    ensures { IfOk result (λ added. Adds code.now (ForOne code.now k through (λ o r. Holds code.now (Cells (place_from o)) into r)) sets.old sets.new added) }
{
    match number_at(code, &*sets, through, k) {
        Some(o) => copy(code, sets, Node::Cells(place_at(o)), into),
        None => Ok(false),
    }
}

/// Puts what the cells of the places of one row have into another.
fn load(code: &Code, sets: &mut Sets, through: Node, into: Node) -> Result<bool, AllocError>
    requires few { length code.now.functions ≤ 2 ^ 20 }
    requires wide { widths sets.old ≡ widths_of code.now }
    requires fine { AreFine code.now sets.old }
    requires through { IsNode code.now through }
    requires into { IsNode code.now into }
    requires gives { (o p : ℕ) → Fine code.now through o → MayPoint code.now (Cells (place_from o)) (place_from p) → MayPoint code.now into (place_from p) }
    ensures { IfOk result (λ added. Adds code.now (ForAll code.now through (λ o r. Holds code.now (Cells (place_from o)) into r)) sets.old sets.new added) }
{
    let mut added = false;
    for k in 0..len_of(code, &*sets, through) {
        added |= load_at(code, sets, through, k, into)?;
    }
    Ok(added)
}

fn store_at(
    code: &Code,
    sets: &mut Sets,
    through: Node,
    k: usize,
    from: Node,
) -> Result<bool, AllocError>
    requires few { length code.now.functions ≤ 2 ^ 20 }
    requires wide { widths sets.old ≡ widths_of code.now }
    requires fine { AreFine code.now sets.old }
    requires through { IsNode code.now through }
    requires from { IsNode code.now from }
    requires gives { (o p : ℕ) → Fine code.now through o → MayPoint code.now from (place_from p) → MayPoint code.now (Cells (place_from o)) (place_from p) }
    ensures { IfOk result (λ added. Adds code.now (ForOne code.now k through (λ o r. Holds code.now from (Cells (place_from o)) r)) sets.old sets.new added) }
{
    match number_at(code, &*sets, through, k) {
        Some(o) => copy(code, sets, from, Node::Cells(place_at(o))),
        None => Ok(false),
    }
}

/// Puts what one row has into the cells of the places of another.
fn store(code: &Code, sets: &mut Sets, through: Node, from: Node) -> Result<bool, AllocError>
    requires few { length code.now.functions ≤ 2 ^ 20 }
    requires wide { widths sets.old ≡ widths_of code.now }
    requires fine { AreFine code.now sets.old }
    requires through { IsNode code.now through }
    requires from { IsNode code.now from }
    requires gives { (o p : ℕ) → Fine code.now through o → MayPoint code.now from (place_from p) → MayPoint code.now (Cells (place_from o)) (place_from p) }
    ensures { IfOk result (λ added. Adds code.now (ForAll code.now through (λ o r. Holds code.now from (Cells (place_from o)) r)) sets.old sets.new added) }
{
    let mut added = false;
    for k in 0..len_of(code, &*sets, through) {
        added |= store_at(code, sets, through, k, from)?;
    }
    Ok(added)
}

/// Does what one constraint asks.
fn apply(code: &Code, sets: &mut Sets, constraint: Constraint) -> Result<bool, AllocError>
    requires there { AreThere code.now }
    requires wide { widths sets.old ≡ widths_of code.now }
    requires fine { AreFine code.now sets.old }
    requires one { Contains (constraints_of code.now) constraint }
    ensures { IfOk result (λ added. Adds code.now (Meets code.now constraint) sets.old sets.new added) }
{
    match constraint {
        Constraint::Given { node, place } => put(code, sets, node, number_of(place)),
        Constraint::Included { from, to } => copy(code, sets, from, to),
        Constraint::Shifted {
            from,
            to,
            by,
            element,
            back,
        } => shift(code, sets, from, to, Step { by, element, back }),
        Constraint::Strided { from, to, element } => sweep(code, sets, from, to, element),
        Constraint::Loaded { through, into } => load(code, sets, through, into),
        Constraint::Stored { through, from } => store(code, sets, through, from),
    }
}

/// Does what the k-th constraint asks, and lets those wait that read what it adds to.
fn apply_waiting(
    code: &Code,
    constraints: &[Constraint],
    sets: &mut Sets,
    agenda: &mut Agenda,
    k: usize,
) -> Result<(), AllocError>
    requires there { AreThere code.now }
    requires all { constraints.now ≡ constraints_of code.now }
    requires wide { widths sets.old ≡ widths_of code.now }
    requires fine { AreFine code.now sets.old }
    requires within { k < length constraints.now }
    ensures wide { OnOk result (widths sets.new ≡ widths_of code.now) }
    ensures fine { OnOk result (AreFine code.now sets.new) }
{
    let constraint = constraints[k];
    agenda.begin(code, &*sets, constraint, k)?;
    let added = apply(code, sets, constraint)?;
    agenda.applied(code, &*sets, constraint, added)?;
    Ok(())
}

/// Does so where there is such a constraint.
fn apply_number(
    code: &Code,
    constraints: &[Constraint],
    sets: &mut Sets,
    agenda: &mut Agenda,
    k: usize,
) -> Result<(), AllocError>
    requires there { AreThere code.now }
    requires all { constraints.now ≡ constraints_of code.now }
    requires wide { widths sets.old ≡ widths_of code.now }
    requires fine { AreFine code.now sets.old }
    ensures wide { OnOk result (widths sets.new ≡ widths_of code.now) }
    ensures fine { OnOk result (AreFine code.now sets.new) }
{
    if k < constraints.len() {
        apply_waiting(code, constraints, sets, agenda, k)
    } else {
        Ok(())
    }
}

/// Does what these constraints ask.
fn apply_all(
    code: &Code,
    constraints: &[Constraint],
    sets: &mut Sets,
    agenda: &mut Agenda,
    numbers: &[usize],
) -> Result<(), AllocError>
    requires there { AreThere code.now }
    requires all { constraints.now ≡ constraints_of code.now }
    requires wide { widths sets.old ≡ widths_of code.now }
    requires fine { AreFine code.now sets.old }
    ensures wide { OnOk result (widths sets.new ≡ widths_of code.now) }
    ensures fine { OnOk result (AreFine code.now sets.new) }
{
    for j in 0..numbers.len() {
        apply_number(code, constraints, sets, agenda, numbers[j])?;
    }
    Ok(())
}

/// Does what the constraints that wait ask, until none does, to and fro, so that what is handed on along the text comes far in
/// one turn. It ends, since a set grows each time that some are let wait.
fn spread(
    alloc: Global,
    code: &Code,
    constraints: &[Constraint],
    sets: &mut Sets,
) -> Result<(), AllocError>
    requires there { AreThere code.now }
    requires all { constraints.now ≡ constraints_of code.now }
    requires wide { widths sets.old ≡ widths_of code.now }
    requires fine { AreFine code.now sets.old }
    ensures wide { OnOk result (widths sets.new ≡ widths_of code.now) }
    ensures fine { OnOk result (AreFine code.now sets.new) }
{
    let mut agenda = Agenda::new(alloc, code, constraints, &*sets)?;
    let mut back = false;
    for _turn in 0..u64::MAX {
        let numbers = agenda.take(alloc, back)?;
        if numbers.is_empty() {
            return Ok(());
        }
        apply_all(code, constraints, sets, &mut agenda, numbers.as_slice())?;
        back = !back;
    }
    Ok(())
}

/// Goes over all constraints once.
fn round(code: &Code, constraints: &[Constraint], sets: &mut Sets) -> Result<bool, AllocError>
    requires there { AreThere code.now }
    requires all { constraints.now ≡ constraints_of code.now }
    requires wide { widths sets.old ≡ widths_of code.now }
    requires fine { AreFine code.now sets.old }
    ensures { IfOk result (λ added. Adds code.now (MeetsAll code.now) sets.old sets.new added) }
{
    let mut added = false;
    for constraint in constraints {
        added |= apply(code, sets, *constraint)?;
    }
    Ok(added)
}

/// What the constraints ask spreads along those that read what was added to. Then rounds over all of them, until one adds
/// nothing: mostly the first, which shows that all are met.
pub fn fill(
    alloc: Global,
    code: &Code,
    constraints: &[Constraint],
    sets: &mut Sets,
) -> Result<(), AllocError>
    requires there { AreThere code.now }
    requires all { constraints.now ≡ constraints_of code.now }
    requires wide { widths sets.old ≡ widths_of code.now }
    requires fine { AreFine code.now sets.old }
    ensures wide { OnOk result (widths sets.new ≡ widths_of code.now) }
    ensures fine { OnOk result (AreFine code.now sets.new) }
    ensures met { OnOk result (MeetsAll code.now sets.new) }
{
    spread(alloc, code, constraints, sets)?;
    let mut more = true;
    while more {
        more = round(code, constraints, sets)?;
    }
    Ok(())
}
