//! Pieces of the code of expressions, whose operands have registers.
ghost use Rattle.std.specs.Prelude.{◌≡◌, ◌+◌, ◌++◌, ◌∷◌, [], if◌then◌else◌, Some, IfOk, OnOk};
ghost use Rattle.flow_code.specs.declared.act.Act.TheVariants as act;
ghost use Rattle.flow_code.specs.declared.work.Work.TheVariants as work;
ghost use Rattle.core_tree.specs.View.{exp_of};
ghost use Rattle.lowering_parts.specs.Kept.{kept};
ghost use Rattle.lowering_parts.specs.Pieces as spec;
ghost use Rattle.lowering_parts.specs.Sizes as size;

use crate::emit::{Next, change_work, push, push_truth, push_work};
use crate::library::gives_nothing;
use crate::sizes::value_size;
use core_tree::{Change, Value};
use flow_code::{Act, Instr, Work};
use rr_base::{List, Position, sum};
use std::alloc::AllocError;
use word_semantics::{BinaryOp, LibraryCall};

/// The register that has the value of an expression, and what is free after its code.
#[derive(Clone, Copy, Debug)]
pub struct Operand {
    pub register: u32,
    pub following: Next,
}

/// The last instruction of an expression, whose parts end where `following` says.
pub fn push_last(
    out: &mut List<Instr>,
    at: Position,
    following: Next,
    act: Act,
) -> Result<Next, AllocError>
    ensures register { IfOk result (λ n. n.register ≡ following.register) }
    ensures place { IfOk result (λ n. n.place ≡ following.place + 1) }
    ensures out { OnOk result (out.new ≡ out.old ++ spec.one at act) }
{
    push(out, at, act)?;
    following.following(1)
}

/// The last instruction of an expression whose value it puts into a register.
pub fn push_given(
    out: &mut List<Instr>,
    at: Position,
    into: u32,
    following: Next,
    act: Act,
) -> Result<Operand, AllocError>
    ensures value { IfOk result (λ o. o.register ≡ into) }
    ensures register { IfOk result (λ o. o.following.register ≡ following.register) }
    ensures place { IfOk result (λ o. o.following.place ≡ following.place + 1) }
    ensures out { OnOk result (out.new ≡ out.old ++ spec.one at act) }
{
    Ok(Operand {
        register: into,
        following: push_last(out, at, following, act)?,
    })
}

/// Computes a work into the next register.
pub fn push_computed(
    out: &mut List<Instr>,
    at: Position,
    into: u32,
    following: Next,
    work: Work,
) -> Result<Operand, AllocError>
    ensures value { IfOk result (λ o. o.register ≡ into) }
    ensures register { IfOk result (λ o. o.following.register ≡ following.register) }
    ensures place { IfOk result (λ o. o.following.place ≡ following.place + 1) }
    ensures out { OnOk result (out.new ≡ out.old ++ spec.computes at into work) }
{
    push_given(out, at, into, following, Act::Compute { into, work })
}

/// An operator between the words of two registers.
pub fn push_binary(
    out: &mut List<Instr>,
    at: Position,
    into: u32,
    op: BinaryOp,
    left: u32,
    right: Operand,
) -> Result<Operand, AllocError>
    ensures value { IfOk result (λ o. o.register ≡ into) }
    ensures register { IfOk result (λ o. o.following.register ≡ right.following.register) }
    ensures place { IfOk result (λ o. o.following.place ≡ right.following.place + 1) }
    ensures out { OnOk result (out.new ≡ out.old ++ spec.computes at into (work.Binary op left right.register)) }
{
    let work = Work::Binary {
        op,
        left,
        right: right.register,
    };
    push_computed(out, at, into, right.following, work)
}

/// How many elements lie between the pointers of two registers.
pub fn push_between(
    out: &mut List<Instr>,
    at: Position,
    into: u32,
    element: u32,
    left: u32,
    right: Operand,
) -> Result<Operand, AllocError>
    ensures value { IfOk result (λ o. o.register ≡ into) }
    ensures register { IfOk result (λ o. o.following.register ≡ right.following.register) }
    ensures place { IfOk result (λ o. o.following.place ≡ right.following.place + 1) }
    ensures out { OnOk result (out.new ≡ out.old ++ spec.computes at into (work.Between left right.register element)) }
{
    let work = Work::Between {
        left,
        right: right.register,
        element,
    };
    push_computed(out, at, into, right.following, work)
}

/// A pointer moved by a number.
pub fn moved(pointer: Operand, by: Operand, element: u32, back: bool) -> Work
    ensures { result ≡ work.Move pointer.register by.register element back }
{
    Work::Move {
        pointer: pointer.register,
        by: by.register,
        element,
        back,
    }
}

/// The branch on a condition.
pub fn push_chosen(
    out: &mut List<Instr>,
    at: Position,
    tested: Operand,
    then_at: u32,
    else_at: u32,
) -> Result<Next, AllocError>
    ensures register { IfOk result (λ n. n.register ≡ tested.following.register) }
    ensures place { IfOk result (λ n. n.place ≡ tested.following.place + 1) }
    ensures out { OnOk result (out.new ≡ out.old ++ spec.one at (act.Branch tested.register then_at else_at)) }
{
    let act = Act::Branch {
        on: tested.register,
        then_at,
        else_at,
    };
    push_last(out, at, tested.following, act)
}

/// A word without parts.
pub fn push_alone(
    out: &mut List<Instr>,
    at: Position,
    from: Next,
    work: Work,
) -> Result<Operand, AllocError>
    ensures value { IfOk result (λ o. o.register ≡ from.register) }
    ensures register { IfOk result (λ o. o.following.register ≡ from.register + 1) }
    ensures place { IfOk result (λ o. o.following.place ≡ from.place + 1) }
    ensures out { OnOk result (out.new ≡ out.old ++ spec.computes at from.register work) }
{
    push_computed(out, at, from.register, from.using(1)?, work)
}

/// A register gets what another one holds, and so does the register of the expression.
pub fn push_set(
    out: &mut List<Instr>,
    at: Position,
    following: Next,
    register: u32,
    from: u32,
    into: u32,
) -> Result<Operand, AllocError>
    ensures value { IfOk result (λ o. o.register ≡ into) }
    ensures register { IfOk result (λ o. o.following.register ≡ following.register) }
    ensures place { IfOk result (λ o. o.following.place ≡ following.place + 2) }
    ensures out { OnOk result (out.new ≡ out.old ++ (spec.instr at (act.Compute register (work.Copy from)) ∷ spec.computes at into (work.Copy from))) }
{
    push_work(out, at, register, Work::Copy(from))?;
    push_work(out, at, into, Work::Copy(from))?;
    Ok(Operand {
        register: into,
        following: following.following(2)?,
    })
}

/// A cell gets what a register holds, and so does the register of the expression.
pub fn push_stored(
    out: &mut List<Instr>,
    at: Position,
    following: Next,
    through: u32,
    from: u32,
    into: u32,
) -> Result<Operand, AllocError>
    ensures value { IfOk result (λ o. o.register ≡ into) }
    ensures register { IfOk result (λ o. o.following.register ≡ following.register) }
    ensures place { IfOk result (λ o. o.following.place ≡ following.place + 2) }
    ensures out { OnOk result (out.new ≡ out.old ++ (spec.instr at (act.StoreCell through from) ∷ spec.computes at into (work.Copy from))) }
{
    push(out, at, Act::StoreCell { through, from })?;
    push_work(out, at, into, Work::Copy(from))?;
    Ok(Operand {
        register: into,
        following: following.following(2)?,
    })
}

/// The register of the expression gets what another one holds, and the rest is jumped over.
pub fn push_left(
    out: &mut List<Instr>,
    at: Position,
    following: Next,
    into: u32,
    from: u32,
    to: u32,
) -> Result<Next, AllocError>
    ensures register { IfOk result (λ n. n.register ≡ following.register) }
    ensures place { IfOk result (λ n. n.place ≡ following.place + 2) }
    ensures out { OnOk result (out.new ≡ out.old ++ (spec.instr at (act.Compute into (work.Copy from)) ∷ spec.one at (act.Jump to))) }
{
    push_work(out, at, into, Work::Copy(from))?;
    push(out, at, Act::Jump { to })?;
    following.following(2)
}

/// 1 or 0, by whether a register holds 0.
pub fn push_tested(
    out: &mut List<Instr>,
    at: Position,
    into: u32,
    tested: Operand,
) -> Result<Operand, AllocError>
    ensures value { IfOk result (λ o. o.register ≡ into) }
    ensures register { IfOk result (λ o. o.following.register ≡ tested.following.register) }
    ensures place { IfOk result (λ o. o.following.place ≡ tested.following.place + 4) }
    ensures out { OnOk result (out.new ≡ out.old ++ spec.truth_code at into tested.register tested.following.place) }
{
    push_truth(out, at, into, tested.register, tested.following.place)?;
    Ok(Operand {
        register: into,
        following: tested.following.following(4)?,
    })
}

/// The word before a change has its register right after that of the expression, and the word after it the next one.
fn push_changed(
    out: &mut List<Instr>,
    at: Position,
    from: Next,
    change: Change,
    by: u32,
    last: Act,
    gives_old: bool,
) -> Result<(), AllocError>
    ensures { OnOk result (out.new ≡ out.old ++ (spec.instr at (act.Compute (from.register + 2) (spec.change_work change (from.register + 1) by)) ∷ spec.instr at last ∷ spec.computes at from.register (work.Copy (if gives_old then from.register + 1 else from.register + 2)))) }
{
    let old = sum(from.register, 1)?;
    let new = sum(from.register, 2)?;
    push_work(out, at, new, change_work(change, old, by))?;
    push(out, at, last)?;
    let given = if gives_old { old } else { new };
    push_work(out, at, from.register, Work::Copy(given))
}

/// The word that a register holds before it changes, and what is free after it.
pub fn push_old(
    out: &mut List<Instr>,
    at: Position,
    from: Next,
    register: u32,
) -> Result<Next, AllocError>
    ensures register { IfOk result (λ n. n.register ≡ from.register + 3) }
    ensures place { IfOk result (λ n. n.place ≡ from.place + 1) }
    ensures out { OnOk result (out.new ≡ out.old ++ spec.computes at (from.register + 1) (work.Copy register)) }
{
    let into = sum(from.register, 1)?;
    let inner = from.using(3)?;
    let work = Work::Copy(register);
    push_last(out, at, inner, Act::Compute { into, work })
}

/// The word that a cell holds before it changes.
pub fn push_loaded(
    out: &mut List<Instr>,
    at: Position,
    from: Next,
    following: Next,
    through: u32,
) -> Result<Next, AllocError>
    ensures register { IfOk result (λ n. n.register ≡ following.register) }
    ensures place { IfOk result (λ n. n.place ≡ following.place + 1) }
    ensures out { OnOk result (out.new ≡ out.old ++ spec.one at (act.LoadCell (from.register + 1) through)) }
{
    let into = sum(from.register, 1)?;
    push_last(out, at, following, Act::LoadCell { into, through })
}

/// A register changes by an operand.
pub fn push_register_changed(
    out: &mut List<Instr>,
    at: Position,
    from: Next,
    change: Change,
    by: Operand,
    register: u32,
    gives_old: bool,
) -> Result<Operand, AllocError>
    ensures value { IfOk result (λ o. o.register ≡ from.register) }
    ensures register { IfOk result (λ o. o.following.register ≡ by.following.register) }
    ensures place { IfOk result (λ o. o.following.place ≡ by.following.place + 3) }
    ensures out { OnOk result (out.new ≡ out.old ++ (spec.instr at (act.Compute (from.register + 2) (spec.change_work change (from.register + 1) by.register)) ∷ spec.instr at (act.Compute register (work.Copy (from.register + 2))) ∷ spec.computes at from.register (work.Copy (if gives_old then from.register + 1 else from.register + 2)))) }
{
    let new = sum(from.register, 2)?;
    let last = Act::Compute {
        into: register,
        work: Work::Copy(new),
    };
    push_changed(out, at, from, change, by.register, last, gives_old)?;
    Ok(Operand {
        register: from.register,
        following: by.following.following(3)?,
    })
}

/// A cell changes by an operand.
pub fn push_cell_changed(
    out: &mut List<Instr>,
    at: Position,
    from: Next,
    change: Change,
    by: Operand,
    through: u32,
    gives_old: bool,
) -> Result<Operand, AllocError>
    ensures value { IfOk result (λ o. o.register ≡ from.register) }
    ensures register { IfOk result (λ o. o.following.register ≡ by.following.register) }
    ensures place { IfOk result (λ o. o.following.place ≡ by.following.place + 3) }
    ensures out { OnOk result (out.new ≡ out.old ++ (spec.instr at (act.Compute (from.register + 2) (spec.change_work change (from.register + 1) by.register)) ∷ spec.instr at (act.StoreCell through (from.register + 2)) ∷ spec.computes at from.register (work.Copy (if gives_old then from.register + 1 else from.register + 2)))) }
{
    let new = sum(from.register, 2)?;
    let last = Act::StoreCell { through, from: new };
    push_changed(out, at, from, change, by.register, last, gives_old)?;
    Ok(Operand {
        register: from.register,
        following: by.following.following(3)?,
    })
}

/// The branch of `&&` on its first operand: to the second one, or to where 0 is given.
pub fn push_and(
    out: &mut List<Instr>,
    at: Position,
    tested: Operand,
    right: &Value,
) -> Result<Next, AllocError>
    ensures register { IfOk result (λ n. n.register ≡ tested.following.register) }
    ensures place { IfOk result (λ n. n.place ≡ tested.following.place + 1) }
    ensures out { OnOk result (out.new ≡ out.old ++ spec.one at (act.Branch tested.register (tested.following.place + 1) (tested.following.place + 1 + size.exp_size (kept (exp_of right.now)) + 3))) }
{
    let then_at = sum(tested.following.place, 1)?;
    let else_at = sum(sum(then_at, value_size(right)?)?, 3)?;
    let act = Act::Branch {
        on: tested.register,
        then_at,
        else_at,
    };
    push_last(out, at, tested.following, act)
}

/// The branch of `||` on its first operand: to where 1 is given, or to the second operand.
pub fn push_or(
    out: &mut List<Instr>,
    at: Position,
    tested: Operand,
    right: &Value,
) -> Result<Next, AllocError>
    ensures register { IfOk result (λ n. n.register ≡ tested.following.register) }
    ensures place { IfOk result (λ n. n.place ≡ tested.following.place + 1) }
    ensures out { OnOk result (out.new ≡ out.old ++ spec.one at (act.Branch tested.register (tested.following.place + 1 + size.exp_size (kept (exp_of right.now)) + 1) (tested.following.place + 1))) }
{
    let else_at = sum(tested.following.place, 1)?;
    let then_at = sum(sum(else_at, value_size(right)?)?, 1)?;
    let act = Act::Branch {
        on: tested.register,
        then_at,
        else_at,
    };
    push_last(out, at, tested.following, act)
}

/// A call of the library. Where it gives nothing, the register of the expression gets 0.
pub fn push_library(
    out: &mut List<Instr>,
    at: Position,
    following: Next,
    into: u32,
    call: LibraryCall,
    arguments: List<u32>,
) -> Result<Operand, AllocError>
    ensures value { IfOk result (λ o. o.register ≡ into) }
    ensures register { IfOk result (λ o. o.following.register ≡ following.register) }
    ensures place { IfOk result (λ o. o.following.place ≡ following.place + size.library_size call) }
    ensures out { OnOk result (out.new ≡ out.old ++ spec.library_code at into call arguments) }
{
    if gives_nothing(&call) {
        let act = Act::Library {
            call,
            arguments,
            into: None,
        };
        push(out, at, act)?;
        push_work(out, at, into, Work::Constant(0))?;
        Ok(Operand {
            register: into,
            following: following.following(2)?,
        })
    } else {
        let act = Act::Library {
            call,
            arguments,
            into: Some(into),
        };
        push_given(out, at, into, following, act)
    }
}

/// Where the two values of a `?:` begin whose condition ends at the place, and where they end.
pub fn places_of(place: u32, yes: &Value, no: &Value) -> Result<(u32, u32, u32), AllocError>
    ensures then_at { IfOk result (λ r. r.0 ≡ place + 1) }
    ensures else_at { IfOk result (λ r. r.1 ≡ place + 1 + size.exp_size (kept (exp_of yes.now)) + 2) }
    ensures to { IfOk result (λ r. r.2 ≡ place + 1 + size.exp_size (kept (exp_of yes.now)) + 2 + size.exp_size (kept (exp_of no.now)) + 1) }
{
    let then_at = sum(place, 1)?;
    let else_at = sum(sum(then_at, value_size(yes)?)?, 2)?;
    let to = sum(sum(else_at, value_size(no)?)?, 1)?;
    Ok((then_at, else_at, to))
}
