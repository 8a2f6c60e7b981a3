//! Expressions with commas between them (C99 6.5.17), joined so that none nests deep.
ghost use Rattle.std.specs.Prelude.{◌≡◌, None, IfOk};
ghost use Rattle.core_tree.specs.View.{exp_of};
ghost use Rattle.c_operators.specs.Commas as spec;
ghost use Rattle.c_operators.specs.Views.{maybe_word, places_of};

use crate::make;
use core_tree::Value;
use rr_base::{List, Position};
use std::alloc::{AllocError, Global};

/// One word after another, whose value is let go.
fn following(
    alloc: Global,
    before: Option<Box<Value>>,
    value: Option<Box<Value>>,
    at: Position,
) -> Result<Option<Box<Value>>, AllocError>
    ensures { IfOk result (λ v. maybe_word v ≡ spec.following (maybe_word before) (maybe_word value) at) }
{
    match (before, value) {
        (None, value) => Ok(value),
        (Some(before), None) => Ok(Some(before)),
        (Some(before), Some(value)) => {
            let both = make::comma(alloc, before, value, at)?;
            Ok(Some(both))
        }
    }
}

/// A word more after those so far, of which the last place stands last.
pub fn push_last(
    alloc: Global,
    so_far: &mut List<Option<Box<Value>>>,
    value: Box<Value>,
    at: Position,
) -> Result<(), AllocError>
    ensures { IfOk result (λ u. places_of so_far.new ≡ spec.with_last (exp_of value.value) (places_of so_far.old) at) }
{
    match so_far.pop() {
        Some(Some(before)) => {
            let both = make::comma(alloc, before, value, at)?;
            push_last(alloc, so_far, both, at)?;
            so_far.push(None)
        }
        Some(None) | None => so_far.push(Some(value)),
    }
}

/// All words so far as one. Nothing where there is none.
pub fn joined(
    alloc: Global,
    so_far: List<Option<Box<Value>>>,
    at: Position,
) -> Result<Option<Box<Value>>, AllocError>
    ensures { IfOk result (λ v. maybe_word v ≡ spec.joined (places_of so_far) None at) }
{
    let mut so_far = so_far;
    let mut last = None;
    while let Some(before) = so_far.pop() {
        last = following(alloc, before, last, at)?;
    }
    Ok(last)
}
