//! The input, whose state is the position, and the output, which has one state.

ghost use Rattle.std.specs.Prelude.{◌≡◌, ℕ, ◌+◌, ◌<◌, ◌^◌};
ghost use Rattle.sync_objects.specs.declared.operation.Op.TheVariants as op;
ghost use Rattle.sync_objects.specs.Moved.{moved};
ghost use Rattle.sync_objects.specs.Table.{Moves};

use crate::rows::moved::{DONE, Moved};

/// `getchar`: the position of the next byte among the `len` of the input, or `len` at its end.
pub fn get_char(len: u32, state: u32) -> Moved
    ensures { (thread : ℕ) → moved (op.GetChar len) thread state ≡ Moves result.state result.answer }
{
    let next = if state < len { state + 1 } else { state };
    Moved::new(next, state as i64)
}

/// `printf` and its kin, whose bytes the thread keeps.
pub fn print(state: u32) -> Moved
    requires { state ≡ 0 }
    ensures { (thread : ℕ) → moved op.Print thread state ≡ Moves result.state result.answer }
{
    Moved::new(state, DONE)
}
