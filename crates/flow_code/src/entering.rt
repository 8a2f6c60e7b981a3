// Entering a function: the objects that it has from its entry on, and the registers of its frame.
ghost use Rattle.std.specs.Prelude.{◌≡◌, ◌≤◌, length, codes, nat_eq, MatchOption, Some, None};
ghost use Rattle.std.specs.Cmp.Lexicographic.{pointwise};
ghost use Rattle.std.specs.Vec.{vec_capacity};
ghost use Rattle.flow_code.specs.Threads as spec;
ghost use Rattle.word_semantics.specs.Registers.{words_of};

use crate::act::{Act, Instr};
use crate::works::set_register;
use rr_base::Site;
use word_semantics::{argument, pointer_at, size_of};

/// Whether a function of this name is the program's `main` (C99 5.1.2.2.1).
pub fn is_main(name: &[u8]) -> bool
    ensures { result ≡ pointwise nat_eq name.now (codes "main") }
{
    name == b"main".as_slice()
}

// The register and the site of the instruction's object, if it makes one at the entry.
pub(crate) fn object_in(act: &Act) -> Option<(u32, u16)>
    ensures { MatchOption result (spec.object_of act.now ≡ None) (λ it. spec.object_of act.now ≡ Some (spec.object it.0 it.1)) }
{
    match act {
        Act::Alloc {
            into,
            site,
            size: None,
        } => Some((*into, *site)),
        _ => None,
    }
}

/// How many objects the function of these instructions has from its entry on.
pub fn objects_len(instrs: &[Instr]) -> usize
    ensures { result ≡ length (spec.objects_of instrs.now) }
{
    for (at, instr) in instrs.iter().enumerate() {
        if object_in(&instr.act).is_none() {
            return at;
        }
    }
    instrs.len()
}

/// The arena's next free cell once the objects of these instructions have theirs from cell `at` on, and None where
/// they don't fit before cell `end`.
pub fn fitted_in(sites: &[Site], end: u32, instrs: &[Instr], at: u32) -> Option<u32>
    ensures { result ≡ spec.fitted sites.now end (spec.objects_of instrs.now) at }
{
    let mut next = at;
    for instr in instrs {
        match object_in(&instr.act) {
            Some((_, site)) => {
                next = next.checked_add(size_of(sites, site))?;
                if next > end {
                    return None;
                }
            }
            None => return Some(next),
        }
    }
    Some(next)
}

/// Writes the pointers to the objects of these instructions, which have the cells from `at` on, into their registers.
pub fn place(sites: &[Site], instrs: &[Instr], at: u32, registers: &mut Vec<u64>)
    ensures { registers.new.items ≡ spec.placed sites.now (spec.objects_of instrs.now) at registers.old.items }
{
    let mut next = at;
    for instr in instrs {
        match object_in(&instr.act) {
            Some((into, site)) => {
                let size = size_of(sites, site);
                set_register(registers, into, pointer_at(site, next, size));
                // A pointer's base counts modulo 2^32, so this may too.
                next = next.wrapping_add(size);
            }
            None => return,
        }
    }
}

/// So many registers, in memory that is at hand: the words in the caller's `arguments` from register 0 on, and 0 in
/// all others. A function entered with the words `ws` themselves gets them as the arguments 0, 1, .. of the registers
/// `ws`.
pub fn fill(arguments: &[u32], registers: &[u64], count: u32, mut into: Vec<u64>) -> Vec<u64>
    requires { count ≤ vec_capacity into }
    ensures { result.items ≡ spec.with_arguments count (words_of registers.now arguments.now) }
{
    into.clear();
    for k in 0..count {
        match into.push(argument(registers, arguments, k as usize)) {
            Ok(()) => {}
            Err(_) => unreachable!(),
        }
    }
    into
}
