//! The least sets that meet the constraints of a code.
ghost use Rattle.std.specs.Prelude.{◌≡◌, ◌≤◌, ◌^◌, ◌++◌, [], ℕ, map, true, length, IfOk, OnOk};
ghost use Rattle.rr_base.specs.declared.layout.Site.{Site as SiteView};
ghost use Rattle.flow_code.specs.declared.code.Function.{Function as FunctionView};
ghost use Rattle.flow_code.specs.Valid.{is_valid};
ghost use Rattle.facts.specs.PointsTo.{IsPointsTo, classes_of as classes_at};
ghost use Rattle.points_to.specs.Ascending.{row_at, widths};
ghost use Rattle.points_to.specs.Nodes.{widths_of};

use crate::constraints::constraints_of;
use crate::filling::fill;
use crate::nodes::classes_of;
use crate::sets::Sets;
use crate::tables::table_of;
use facts::PointsTo;
use flow_code::{Code, Function};
use rr_base::Site;
use std::alloc::{AllocError, Global};

/// A block for the registers of each function.
fn push_registers(alloc: Global, functions: &[Function], sets: &mut Sets) -> Result<(), AllocError>
    ensures widths { OnOk result (widths sets.new ≡ widths sets.old ++ map (λ (f : FunctionView). f.registers) functions.now) }
    ensures empty { ((b n : ℕ) → row_at sets.old b n ≡ []) → (b n : ℕ) → row_at sets.new b n ≡ [] }
{
    for function in functions {
        sets.push_block(alloc, function.registers as usize)?;
    }
    Ok(())
}

/// A block for the classes of each site.
fn push_classes(alloc: Global, sites: &[Site], sets: &mut Sets) -> Result<(), AllocError>
    ensures widths { OnOk result (widths sets.new ≡ widths sets.old ++ map (λ (s : SiteView). classes_at s.layout.element) sites.now) }
    ensures empty { ((b n : ℕ) → row_at sets.old b n ≡ []) → (b n : ℕ) → row_at sets.new b n ≡ [] }
{
    for site in sites {
        sets.push_block(alloc, usize::from(classes_of(site.layout.element)))?;
    }
    Ok(())
}

/// Empty sets for all nodes of a code.
fn empty_sets(alloc: Global, code: &Code) -> Result<Sets, AllocError>
    requires { length code.now.functions ≤ 2 ^ 20 }
    ensures widths { IfOk result (λ sets. widths sets ≡ widths_of code.now) }
    ensures empty { IfOk result (λ sets. (b n : ℕ) → row_at sets b n ≡ []) }
{
    let mut sets = Sets::new(alloc);
    sets.push_block(alloc, code.functions.len() + 1)?;
    push_registers(alloc, code.functions.as_slice(), &mut sets)?;
    push_classes(alloc, code.sites.as_slice(), &mut sets)?;
    Ok(sets)
}

/// Where each register of a valid code, and the cells of each of its places, may point.
pub fn solve(alloc: Global, code: &Code) -> Result<PointsTo, AllocError>
    requires { is_valid code.now ≡ true }
    ensures { IfOk result (λ t. IsPointsTo code.now t) }
{
    let constraints = constraints_of(alloc, code)?;
    let mut sets = empty_sets(alloc, code)?;
    fill(alloc, code, constraints.as_slice(), &mut sets)?;
    let functions = code.functions.len();
    let registers = table_of(alloc, &sets, 1, functions)?;
    let cells = table_of(alloc, &sets, functions + 1, code.sites.len())?;
    Ok(PointsTo::new(registers, cells))
}
