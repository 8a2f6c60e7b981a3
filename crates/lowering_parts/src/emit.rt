//! Instructions one after another.
ghost use Rattle.std.specs.Prelude.{◌≡◌, ◌+◌, ◌++◌, ◌∷◌, IfOk, OnOk};
ghost use Rattle.lowering_parts.specs.Pieces as spec;

use core_tree::{Change, UnaryOp};
use flow_code::{Act, Instr, Work};
use rr_base::{List, Position, sum};
use std::alloc::AllocError;

/// The next free register, and the place of the next instruction.
#[derive(Clone, Copy, Debug)]
pub struct Next {
    pub register: u32,
    pub place: u32,
}

impl Next {
    /// With so many registers used.
    pub fn using(self, registers: u32) -> Result<Next, AllocError>
        ensures register { IfOk result (λ n. n.register ≡ self.register + registers) }
        ensures place { IfOk result (λ n. n.place ≡ self.place) }
    {
        Ok(Next {
            register: sum(self.register, registers)?,
            place: self.place,
        })
    }

    /// After so many instructions.
    pub fn following(self, instrs: u32) -> Result<Next, AllocError>
        ensures register { IfOk result (λ n. n.register ≡ self.register) }
        ensures place { IfOk result (λ n. n.place ≡ self.place + instrs) }
    {
        Ok(Next {
            register: self.register,
            place: sum(self.place, instrs)?,
        })
    }
}

/// One instruction more.
pub fn push(out: &mut List<Instr>, at: Position, act: Act) -> Result<(), AllocError>
    ensures { OnOk result (out.new ≡ out.old ++ spec.one at act) }
{
    out.push(Instr { at, act })
}

/// One instruction more, which computes.
pub fn push_work(
    out: &mut List<Instr>,
    at: Position,
    into: u32,
    work: Work,
) -> Result<(), AllocError>
    ensures { OnOk result (out.new ≡ out.old ++ spec.computes at into work) }
{
    push(out, at, Act::Compute { into, work })
}

/// The work of an operator on one register.
pub fn unary_work(op: UnaryOp, register: u32) -> Work
    ensures { result ≡ spec.unary_work op register }
{
    match op {
        UnaryOp::Minus => Work::Minus(register),
        UnaryOp::Complement => Work::Complement(register),
        UnaryOp::Not => Work::Not(register),
    }
}

/// The work of `+=` and its kin, on what a register holds (C99 6.5.16.2).
pub fn change_work(change: Change, register: u32, by: u32) -> Work
    ensures { result ≡ spec.change_work change register by }
{
    match change {
        Change::Compute(op) => Work::Binary {
            op,
            left: register,
            right: by,
        },
        Change::Move { element, back } => Work::Move {
            pointer: register,
            by,
            element,
            back,
        },
    }
}

/// 1 or 0 for the register `into`, by whether the register `test` holds 0.
pub fn push_truth(
    out: &mut List<Instr>,
    at: Position,
    into: u32,
    test: u32,
    place: u32,
) -> Result<(), AllocError>
    ensures { OnOk result (out.new ≡ out.old ++ spec.truth_code at into test place) }
{
    let then_at = sum(place, 1)?;
    let else_at = sum(place, 3)?;
    let to = sum(place, 4)?;
    push(
        out,
        at,
        Act::Branch {
            on: test,
            then_at,
            else_at,
        },
    )?;
    push_work(out, at, into, Work::Constant(1))?;
    push(out, at, Act::Jump { to })?;
    push_work(out, at, into, Work::Constant(0))
}
