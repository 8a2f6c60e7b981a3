// The accesses of the roots, each at the places that it may touch.
ghost use Rattle.std.specs.Prelude.{◌≡◌, ◌↔◌, [], IfOk, OnOk};
ghost use Rattle.std.specs.List.{Contains};
ghost use Rattle.facts.specs.Pairs as facts_pairs;
ghost use Rattle.facts.specs.PointsTo.{HasRegisters};
ghost use Rattle.race_pairs.specs.Gains.{Gains};
ghost use Rattle.race_pairs.specs.Touches.{TouchesAt, TouchesOf, TouchesFrom, IsTouch};

use crate::roots::{is_main, is_root, started};
use crate::touch::{Reached, Touch};
use facts::{AccessAt, Guarded, PointsTo, Summary, places_of};
use flow_code::Code;
use rr_base::{List, Place};
use std::alloc::{AllocError, Global};

fn touch_places(
    touches: &mut Vec<Touch>,
    places: &[Place],
    access: Reached,
) -> Result<(), AllocError>
    ensures { OnOk result (Gains (λ w. Contains places.now w.place × (w.access ≡ access)) touches.old.items touches.new.items) }
{
    for place in places {
        touches.push(Touch {
            place: *place,
            access,
        })?;
    }
    Ok(())
}

fn touch(
    code: &Code,
    points: &PointsTo,
    root: usize,
    index: usize,
    guarded: &Guarded,
    touches: &mut Vec<Touch>,
) -> Result<(), AllocError>
    requires { HasRegisters code.now points.now }
    ensures { OnOk result (Gains (TouchesAt code.now points.now root index guarded.now) touches.old.items touches.new.items) }
{
    let at = AccessAt {
        function: guarded.function,
        instr: guarded.instr,
    };
    let access = Reached {
        at,
        root,
        is_main: is_main(code, root),
        index,
    };
    touch_places(touches, places_of(code, points, at), access)
}

fn touch_all(
    code: &Code,
    points: &PointsTo,
    root: usize,
    guarded: &[Guarded],
    touches: &mut Vec<Touch>,
) -> Result<(), AllocError>
    requires { HasRegisters code.now points.now }
    ensures { OnOk result (Gains (TouchesOf code.now points.now root guarded.now) touches.old.items touches.new.items) }
{
    for index in 0..guarded.len() {
        touch(code, points, root, index, &guarded[index], touches)?;
    }
    Ok(())
}

fn touch_root(
    code: &Code,
    points: &PointsTo,
    root: usize,
    is_started: bool,
    summary: &Summary,
    touches: &mut Vec<Touch>,
) -> Result<(), AllocError>
    requires lists { HasRegisters code.now points.now }
    requires started { is_started ≡ facts_pairs.is_started code.now root }
    ensures { OnOk result (Gains (TouchesFrom code.now points.now root summary.now) touches.old.items touches.new.items) }
{
    if is_root(code, root, is_started) {
        touch_all(code, points, root, summary.guarded.as_slice(), touches)?;
    }
    Ok(())
}

/// The accesses of all roots at their places, in no order.
pub(crate) fn touches(
    alloc: Global,
    code: &Code,
    points: &PointsTo,
    summaries: &[Summary],
) -> Result<Vec<Touch>, AllocError>
    requires { HasRegisters code.now points.now }
    ensures { IfOk result (λ all. Gains (IsTouch code.now points.now summaries.now) [] all.items) }
{
    let are_started = started(alloc, code, summaries.len())?;
    let mut all = Vec::new(alloc);
    for root in 0..summaries.len() {
        touch_root(
            code,
            points,
            root,
            are_started[root],
            &summaries[root],
            &mut all,
        )?;
    }
    Ok(all)
}
