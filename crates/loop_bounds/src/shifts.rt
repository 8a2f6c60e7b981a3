//! Bases and indices of moved pointers.
ghost use Rattle.std.specs.Prelude.{◌≡◌, ◌<◌, length, ℕ, ℤ, List as Items, Option, IfSome};
ghost use Rattle.std.specs.Option.{option_copied};
ghost use Rattle.facts.specs.Blocks.{AreAmounts, amount_by, constant_at};
ghost use Rattle.flow_code.specs.declared.act.Instr.{Instr as Step};
ghost use Rattle.loop_bounds.specs.Tables.{AreMakers, AreOperands};
ghost use Rattle.weak_lock_facts.specs.Ranges as spec;

use crate::acts::{moved_of, nth};
use crate::makers::{Makers, is_kept};
use flow_code::{Act, Base, Instr, LoopInfo, Work};
use word_semantics::BinaryOp;

/// The address of a global, or a register that the loop keeps.
fn base_of(
    instrs: &[Instr],
    makers: &Makers,
    counted: &LoopInfo,
    register: u32,
    act: Option<&Act>,
) -> Option<Base>
    requires { AreMakers instrs.now makers.now }
    ensures { result ≡ spec.base_of instrs.now counted.now register (option_copied act.entry) }
{
    match act {
        Some(
            Act::Compute {
                into: _,
                work: Work::Address(word),
            },
        ) => Some(Base::Site(word.site())),
        _ if is_kept(instrs, makers, counted, register) => Some(Base::Register(register)),
        _ => None,
    }
}

fn base_at(
    instrs: &[Instr],
    makers: &Makers,
    counted: &LoopInfo,
    maker: Option<usize>,
    register: u32,
) -> Option<Base>
    requires { AreMakers instrs.now makers.now }
    ensures { (k : ℕ) → maker ≡ spec.maker_at instrs.now k register → result ≡ spec.base_at instrs.now counted.now k register }
{
    let act = match maker {
        Some(maker) => nth(instrs, maker),
        None => None,
    };
    base_of(instrs, makers, counted, register, act)
}

fn negative(number: i64) -> Option<i64>
    ensures { result ≡ spec.negative number }
{
    number.checked_neg()
}

fn negative_of(number: Option<i64>) -> Option<i64>
    ensures { result ≡ spec.negative_of number }
{
    negative(number?)
}

// How far what the instruction computes is after the counter, where this is the constant that it adds or subtracts.
fn shift_by(counter: u32, amount: Option<i64>, act: Option<&Act>) -> Option<i64>
    ensures { (is : Items Step) (k : ℕ) → amount ≡ amount_by (constant_at is k) (option_copied act.entry) → result ≡ spec.shift_by is counter k (option_copied act.entry) }
{
    let Some(Act::Compute { into: _, work }) = act else {
        return None;
    };
    match *work {
        Work::Binary {
            op: BinaryOp::Add,
            left,
            ..
        } if left == counter => amount,
        Work::Binary {
            op: BinaryOp::Subtract,
            left,
            ..
        } if left == counter => negative_of(amount),
        _ => None,
    }
}

/// How far the register is after the counter, which it may be itself, where this instruction made it.
fn shift_at(
    instrs: &[Instr],
    amounts: &[Option<i64>],
    counter: u32,
    maker: Option<usize>,
    register: u32,
) -> Option<i64>
    requires amounts { AreAmounts instrs.now amounts.now }
    requires length { length amounts.now ≡ length instrs.now }
    requires within { IfSome maker (λ m. m < length instrs.now) }
    ensures { (k : ℕ) → maker ≡ spec.maker_at instrs.now k register → result ≡ spec.shift_at instrs.now counter k register }
{
    if register == counter {
        return Some(0);
    }
    let maker = maker?;
    shift_by(counter, amounts[maker], nth(instrs, maker))
}

/// How far after the counter the element is to which the instruction moves a pointer.
pub fn moved_shift(
    instrs: &[Instr],
    makers: &Makers,
    operands: &[(Option<usize>, Option<usize>)],
    amounts: &[Option<i64>],
    counted: &LoopInfo,
    at: usize,
) -> Option<i64>
    requires makers { AreMakers instrs.now makers.now }
    requires operands { AreOperands instrs.now operands.now }
    requires operands_length { length operands.now ≡ length instrs.now }
    requires amounts { AreAmounts instrs.now amounts.now }
    requires amounts_length { length amounts.now ≡ length instrs.now }
    requires at { at < length instrs.now }
    ensures { result ≡ spec.moved_shift instrs.now counted.now at }
{
    let (pointer, by) = moved_of(nth(instrs, at))?;
    let (of_pointer, of_by) = operands[at];
    base_at(instrs, makers, counted, of_pointer, pointer)?;
    shift_at(instrs, amounts, counted.counter, of_by, by)
}
