// Operators on two words, which may be pointers, and the addresses of globals.
ghost use Rattle.std.specs.Prelude.{◌≡◌};
ghost use Rattle.word_semantics.specs.Operators as spec;

use crate::evaluate::{binary, truth};
use crate::operator::BinaryOp;
use crate::pointers::compared;
use rr_base::{PtrWord, Site, Trap};

/// The address with its base counted from cell 0 in place of the first global cell.
pub fn based(slots: u8, address: PtrWord) -> u64
    ensures { result ≡ spec.based slots address }
{
    address
        .word()
        .wrapping_add(2 * u64::from(slots) * (1 << 32))
}

// An operator on two pointers: they compare by their offsets.
fn pointer_binary(sites: &[Site], op: BinaryOp, left: u64, right: u64) -> Result<u64, Trap>
    ensures { result ≡ spec.pointer_binary_of sites.now op left right }
{
    let (from, to) = (
        PtrWord::from_word(left).offset(),
        PtrWord::from_word(right).offset(),
    );
    match op {
        BinaryOp::Less => compared(sites, left, right, truth(from < to)),
        BinaryOp::LessEqual => compared(sites, left, right, truth(from <= to)),
        BinaryOp::Greater => compared(sites, left, right, truth(from > to)),
        BinaryOp::GreaterEqual => compared(sites, left, right, truth(from >= to)),
        _ => binary(op, left, right),
    }
}

/// What an operator gives of two words, which are pointers or whole numbers (C99 6.5.5 to 6.5.12).
#[inline(always)]
pub fn either_binary(
    are_pointers: bool,
    sites: &[Site],
    op: BinaryOp,
    left: u64,
    right: u64,
) -> Result<u64, Trap>
    ensures { result ≡ spec.either_binary_of are_pointers sites.now op left right }
{
    if are_pointers {
        pointer_binary(sites, op, left, right)
    } else {
        binary(op, left, right)
    }
}
