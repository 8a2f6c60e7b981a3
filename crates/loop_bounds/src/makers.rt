//! Which instruction made what a register has.
ghost use Rattle.std.specs.Prelude.{◌≡◌, ◌==◌, ◌≤◌, ◌<◌, ℕ, ◌+◌, ◌||◌, Some, if◌then◌else◌, nat_eq, nat_lt, nat_le, length, IfSome, IfOk, OnOk};
ghost use Rattle.std.specs.HashMap.{get};
ghost use Rattle.std.specs.Option.{option_copied};
ghost use Rattle.facts.specs.Blocks.{AreStarts};
ghost use Rattle.facts.specs.Blocks as blocks;
ghost use Rattle.loop_bounds.specs.Tables as tables;
ghost use Rattle.loop_bounds.specs.Tables.{AreWays, AreMakers};
ghost use Rattle.weak_lock_facts.specs.Loops as loops;
ghost use Rattle.weak_lock_facts.specs.Ranges as spec;

use crate::acts::{assigned, assigns, nth};
use crate::spans::keeps;
use crate::ways::{Ways, is_entered_at};
use flow_code::{Act, Instr, LoopInfo};
use std::alloc::{AllocError, Global};
use std::collections::HashMap;

/// The last of the first instructions that assigns the register.
pub fn last_maker(instrs: &[Instr], before: usize, register: u32) -> Option<usize>
    requires { before ≤ length instrs.now }
    ensures maker { result ≡ spec.last_maker instrs.now before register }
    ensures within { IfSome result (λ q. q < before) }
{
    let mut place = before;
    while place > 0 {
        place -= 1;
        if assigns(register, &instrs[place].act) {
            return Some(place);
        }
    }
    None
}

/// The instruction that alone assigns each register, where one does, for all that are assigned.
pub type Makers = HashMap<u32, Option<usize>>;

fn one_more(at: usize, before: Option<Option<usize>>) -> Option<usize>
    ensures { Some result ≡ tables.one_more at before }
{
    match before {
        None => Some(at),
        Some(_) => None,
    }
}

// One more instruction, which assigns the register.
fn put(makers: &mut Makers, register: u32, at: usize) -> Result<(), AllocError>
    ensures { OnOk result ((r : ℕ) → get nat_eq makers.new r ≡ (if register == r then tables.one_more at (get nat_eq makers.old r) else get nat_eq makers.old r)) }
{
    let maker = one_more(at, makers.get(&register).copied());
    makers.insert(register, maker)?;
    Ok(())
}

fn put_assigned(makers: &mut Makers, act: &Act, at: usize) -> Result<(), AllocError>
    ensures { OnOk result ((r : ℕ) → get nat_eq makers.new r ≡ (if blocks.assigns r (Some act.now) then tables.one_more at (get nat_eq makers.old r) else get nat_eq makers.old r)) }
{
    match assigned(act) {
        Some(register) => put(makers, register, at),
        None => Ok(()),
    }
}

/// The instruction that alone assigns each register.
pub fn makers_of(alloc: Global, instrs: &[Instr]) -> Result<Makers, AllocError>
    ensures { IfOk result (λ makers. AreMakers instrs.now makers) }
{
    let mut makers = HashMap::new(alloc);
    for at in 0..instrs.len() {
        put_assigned(&mut makers, &instrs[at].act, at)?;
    }
    Ok(makers)
}

fn sole_maker(makers: &Makers, register: u32) -> Option<usize>
    ensures { result ≡ tables.the_one (get nat_eq makers.now register) }
{
    match makers.get(&register) {
        Some(maker) => *maker,
        None => None,
    }
}

/// Whether nothing of the loop assigns the register.
pub fn is_kept(instrs: &[Instr], makers: &Makers, counted: &LoopInfo, register: u32) -> bool
    requires { AreMakers instrs.now makers.now }
    ensures { result ≡ loops.keeps instrs.now counted.now register }
{
    match makers.get(&register).copied() {
        None => true,
        Some(Some(maker)) => is_outside(counted, maker),
        Some(None) => keeps(instrs, counted, register),
    }
}

// Whether the place is none of the loop.
fn is_outside(counted: &LoopInfo, place: usize) -> bool
    ensures { result ≡ (nat_lt place counted.now.at || nat_le (counted.now.last + 2) place) }
{
    place < counted.at as usize || counted.last as usize + 2 <= place
}

/// The only instruction that assigns the register, if it stands in the loop before the place, and each way there comes by
/// it.
pub fn only_maker(
    instrs: &[Instr],
    ways: &Ways,
    makers: &Makers,
    counted: &LoopInfo,
    before: usize,
    register: u32,
) -> Option<usize>
    requires ways { AreWays instrs.now ways.now }
    requires makers { AreMakers instrs.now makers.now }
    requires before { before < length instrs.now }
    ensures maker { result ≡ spec.only_maker instrs.now counted.now before register }
    ensures within { IfSome result (λ q. q < length instrs.now) }
{
    let maker = sole_maker(makers, register)?;
    if (counted.at as usize) < maker
        && maker < before
        && is_entered_at(instrs, ways, maker, before)
    {
        Some(maker)
    } else {
        None
    }
}

/// The last instruction before the place in its block that assigns the register.
pub fn maker_at(instrs: &[Instr], starts: &[bool], before: usize, register: u32) -> Option<usize>
    requires starts { AreStarts instrs.now starts.now }
    requires length { length starts.now ≡ length instrs.now }
    requires before { before < length instrs.now }
    ensures maker { result ≡ spec.maker_at instrs.now before register }
    ensures within { IfSome result (λ m. m < before) }
{
    let mut place = before;
    while place > 0 {
        if starts[place] {
            return None;
        }
        place -= 1;
        if assigns(register, &instrs[place].act) {
            return Some(place);
        }
    }
    None
}

/// What the last instruction before the place in its block that assigns the register does.
pub fn made_at<'a>(
    instrs: &'a [Instr],
    starts: &[bool],
    before: usize,
    register: u32,
) -> Option<&'a Act>
    requires starts { AreStarts instrs.now starts.now }
    requires length { length starts.now ≡ length instrs.now }
    requires before { before < length instrs.now }
    ensures { option_copied result ≡ spec.made_at instrs.now before register }
{
    let maker = maker_at(instrs, starts, before, register)?;
    nth(instrs, maker)
}
