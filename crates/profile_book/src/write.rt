// Writing a profile's pairs.

ghost use Rattle.std.specs.Prelude.{◌≡◌, IfOk};
ghost use Rattle.std.specs.List.{AllByRecursion};
ghost use Rattle.std.specs.Str.{IsUtf8};
ghost use Rattle.profiles.specs.Profile.{AreTexts};
ghost use Rattle.serde_json.specs.View.{view, items_view};
ghost use Rattle.profile_book.specs.Writing as spec;
ghost use Rattle.profile_book.specs.Writing.{profile_text};

use profiles::FunctionPairs;
use rr_base::{Bytes, List};
use serde_json::{Value, json};
use std::alloc::{AllocError, Global};
use std::str;

fn text(bytes: &[u8]) -> &str
    requires { IsUtf8 bytes.now }
    ensures { result.now ≡ bytes.now }
{
    str::from_utf8(bytes).unwrap()
}

fn pair_value(alloc: Global, pair: &(Bytes, Bytes)) -> Result<Value, AllocError>
    requires { AreTexts pair.now }
    ensures { IfOk result (λ v. view v ≡ spec.pair_value pair.now) }
{
    let first = text(pair.0.as_slice());
    let second = text(pair.1.as_slice());
    json!(in alloc; [first, second])
}

fn pair_values(alloc: Global, pairs: &[(Bytes, Bytes)]) -> Result<Vec<Value>, AllocError>
    requires { AllByRecursion AreTexts pairs.now }
    ensures { IfOk result (λ vs. items_view vs.items ≡ spec.items_of_pairs pairs.now) }
{
    let mut values = Vec::new(alloc);
    for pair in pairs {
        values.push(pair_value(alloc, pair)?)?;
    }
    Ok(values)
}

fn profile_value(alloc: Global, pairs: &FunctionPairs) -> Result<Value, AllocError>
    ensures { IfOk result (λ v. view v ≡ spec.profile_value pairs.now) }
{
    let values = pair_values(alloc, pairs.as_list().as_slice())?;
    json!(in alloc; {"pairs": values})
}

/// The JSON text of these pairs, with no space and no newline.
pub fn write_profile(alloc: Global, pairs: &FunctionPairs) -> Result<Bytes, AllocError>
    ensures { IfOk result (λ text. text ≡ profile_text pairs.now) }
{
    let value = profile_value(alloc, pairs)?;
    Ok(List::from_vec(value.to_vec(alloc)?))
}
