// Reading a whole profile.

ghost use Rattle.std.specs.Prelude.{◌↔◌, ◌≡◌, ◌≢◌, IfErr, IfOk};
ghost use Rattle.profile_book.specs.declared.fault.ProfileFault.TheVariants.{NotProfile, OutOfMemory};
ghost use Rattle.serde_json.specs.Errors.{IsMemory};
ghost use Rattle.serde_json.specs.View.{view};
ghost use Rattle.profile_book.specs.Reading.{Answers, IsUnread, Spells};

use crate::fault::ProfileFault;
use crate::gather::gathered;
use crate::listing::pairs_of;
use profiles::{FunctionPairs, Profile};
use serde_json::{Category, Error, Value};
use std::alloc::Global;

fn fault_of(error: Error) -> ProfileFault
    ensures memory { (result ≡ OutOfMemory) ↔ IsMemory error }
    ensures other { result ≢ NotProfile }
{
    match error.classify() {
        Category::Memory => ProfileFault::OutOfMemory,
        _ => ProfileFault::NotJson,
    }
}

fn value_of(alloc: Global, bytes: &[u8]) -> Result<Value, ProfileFault>
    ensures ok { IfOk result (λ value. Spells bytes.now (view value)) }
    ensures err { IfErr result (IsUnread bytes.now) }
{
    match Value::from_slice(alloc, bytes) {
        Ok(value) => Ok(value),
        Err(error) => Err(fault_of(error)),
    }
}

/// The profile that a JSON text has, which is an object with the one key `pairs`: an array of arrays of two texts.
/// Each pair is put with its lesser text first, by bytes; then the pairs are sorted, and each is kept once.
pub fn read_profile(alloc: Global, bytes: &[u8]) -> Result<Profile, ProfileFault>
    ensures { Answers bytes.now result }
{
    let value = value_of(alloc, bytes)?;
    let pairs = pairs_of(alloc, &value)?;
    Ok(Profile::Pairs(FunctionPairs::new(gathered(alloc, pairs)?)))
}
