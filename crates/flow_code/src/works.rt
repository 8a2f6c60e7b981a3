// What an instruction that computes gives, from the registers of its frame.
ghost use Rattle.std.specs.Prelude.{◌≡◌, slice_set};
ghost use Rattle.flow_code.specs.Works as spec;

use crate::work::Work;
use rr_base::{Site, Trap};
use word_semantics::{
    based, compared, either_binary, elements_between, moved, moved_by, negate, number, number_from,
    pointer_to, register, truth, word,
};

/// Writes a word into a register, where the frame has it.
pub fn set_register(registers: &mut Vec<u64>, r: u32, word: u64)
    ensures { registers.new.items ≡ slice_set registers.old.items r word }
{
    if (r as usize) < registers.len() {
        registers[r as usize] = word;
    }
}

/// Whether a register holds a pointer; one that the function doesn't have holds none.
pub fn is_pointer(pointers: &[bool], r: u32) -> bool
    ensures { result ≡ spec.is_pointer pointers.now r }
{
    pointers.get(r as usize).copied().unwrap_or(false)
}

/// What a work gives in a code with these sites, of a function with these pointers, in a frame with these registers,
/// where the setup has so many slots: its word, or its trap (C99 6.5.2.3 to 6.5.12).
#[inline(always)]
pub fn compute(
    slots: u8,
    sites: &[Site],
    pointers: &[bool],
    registers: &[u64],
    work: &Work,
) -> Result<u64, Trap>
    ensures { result ≡ spec.work_of slots sites.now pointers.now registers.now work.now }
{
    match *work {
        Work::Constant(value) => Ok(word(value)),
        Work::Address(address) => Ok(based(slots, address)),
        Work::Copy(r) => Ok(register(registers, r)),
        Work::Minus(r) => negate(number(register(registers, r))),
        Work::Complement(r) => Ok(!register(registers, r)),
        Work::Not(r) => Ok(truth(register(registers, r) == 0)),
        Work::Binary { op, left, right } => either_binary(
            is_pointer(pointers, left),
            sites,
            op,
            register(registers, left),
            register(registers, right),
        ),
        Work::Move {
            pointer,
            by,
            element,
            back,
        } => moved_by(
            sites,
            register(registers, pointer),
            number(register(registers, by)),
            element,
            back,
        ),
        Work::Member { pointer, by } => moved(sites, register(registers, pointer), i64::from(by)),
        Work::Between {
            left,
            right,
            element,
        } => {
            let (left, right) = (register(registers, left), register(registers, right));
            compared(sites, left, right, elements_between(left, right, element))
        }
        Work::ToPointer(r) => pointer_to(number(register(registers, r))),
        Work::ToNumber(r) => number_from(sites, register(registers, r)),
    }
}
