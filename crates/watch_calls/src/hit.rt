// The first access that meets a watch.
ghost use Rattle.std.specs.Prelude.{◌≡◌, ◌<◌, ◌^◌, length, position};
ghost use Rattle.thread_interpreter.specs.Formulas.{meets};

use crate::access_test::AccessTest;
use crate::watch::Watch;
use rr_base::List;
use thread_interpreter::Access;

/// The position of the first of the accesses that meets the formula of the watch.
pub fn first_hit<T: AccessTest + Sync>(accesses: &List<Access>, watch: &Watch<T>) -> Option<u32>
    requires { length accesses.now < 2 ^ 32 }
    ensures { result ≡ position (meets watch.now) accesses.now }
{
    let at = accesses
        .as_slice()
        .iter()
        .position(|access| watch.meets(access));
    at.map(|at| at as u32)
}
