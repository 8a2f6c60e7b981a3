//! The constraints of a code, instruction by instruction, and of the start words of its globals.
ghost use Rattle.std.specs.Prelude.{◌≡◌, ◌≤◌, ◌<◌, ◌+◌, ◌^◌, ◌++◌, [], ◌∷◌, ℕ, Some, drop, length, IfOk, OnOk};
ghost use Rattle.word_semantics.specs.declared.library_call.LibraryCall.TheVariants as call;
ghost use Rattle.facts.specs.declared.constraint.Node.TheVariants as node;
ghost use Rattle.facts.specs.declared.constraint.Constraint.TheVariants as constraint;
ghost use Rattle.facts.specs.Blocks.{AreAmounts, amount_by, constant_at};
ghost use Rattle.flow_code.specs.declared.act.Act.TheVariants as act;
ghost use Rattle.facts.specs.PointsTo as spec;

use crate::globals::push_sites;
use facts::{Constraint, Node, amounts, block_starts};
use flow_code::{Act, Code, Function, Instr, Work};
use rr_base::{List, Place, sum};
use std::alloc::{AllocError, Global};
use word_semantics::LibraryCall;

fn register_of(function: u32, register: u32) -> Node
    ensures { result ≡ node.Register function register }
{
    Node::Register { function, register }
}

/// The node may point to the first cell of the site's objects.
fn given(at: Node, site: u16) -> Constraint
    ensures { result ≡ constraint.Given at (spec.place site 0) }
{
    Constraint::Given {
        node: at,
        place: Place { site, class: 0 },
    }
}

/// A pointer that is moved by a number of elements.
fn move_constraint(from: Node, to: Node, by: Option<i64>, element: u32, back: bool) -> Constraint
    ensures { result ≡ spec.move_constraint from to by element back }
{
    match by {
        None => Constraint::Strided { from, to, element },
        Some(by) => Constraint::Shifted {
            from,
            to,
            by,
            element,
            back,
        },
    }
}

/// The constraints of what the instruction at this place computes.
fn push_work(
    function: u32,
    instrs: &[Instr],
    amount: Option<i64>,
    at: usize,
    into: u32,
    work: &Work,
    out: &mut List<Constraint>,
) -> Result<(), AllocError>
    requires { amount ≡ amount_by (constant_at instrs.now at) (Some (act.Compute into work.now)) }
    ensures { OnOk result (out.new ≡ out.old ++ spec.work_constraints function instrs.now at into work.now) }
{
    let to = register_of(function, into);
    match work {
        Work::Address(word) => out.push(given(to, word.site())),
        Work::Copy(from) => out.push(Constraint::Included {
            from: register_of(function, *from),
            to,
        }),
        Work::Move {
            pointer,
            by: _,
            element,
            back,
        } => {
            let from = register_of(function, *pointer);
            out.push(move_constraint(from, to, amount, *element, *back))
        }
        Work::Member { pointer, by } => {
            let from = register_of(function, *pointer);
            out.push(move_constraint(from, to, Some(i64::from(*by)), 1, false))
        }
        _ => Ok(()),
    }
}

/// The arguments of a call go to the formals.
fn push_arguments(
    function: u32,
    arguments: &[u32],
    callee: u32,
    out: &mut List<Constraint>,
) -> Result<(), AllocError>
    ensures { OnOk result (out.new ≡ out.old ++ spec.argument_constraints function arguments.now callee 0) }
{
    let mut formal = 0;
    for register in arguments {
        out.push(Constraint::Included {
            from: Node::Register {
                function,
                register: *register,
            },
            to: Node::Register {
                function: callee,
                register: formal,
            },
        })?;
        formal = sum(formal, 1)?;
    }
    Ok(())
}

/// What a function gives goes into a register of its caller.
fn push_result(
    function: u32,
    callee: u32,
    into: Option<u32>,
    out: &mut List<Constraint>,
) -> Result<(), AllocError>
    ensures { OnOk result (out.new ≡ out.old ++ spec.result_constraints function callee into) }
{
    match into {
        None => Ok(()),
        Some(register) => out.push(Constraint::Included {
            from: Node::Result(callee),
            to: Node::Register { function, register },
        }),
    }
}

/// A call passes its arguments on, and gets what the function gives.
fn push_call(
    function: u32,
    callee: u32,
    arguments: &[u32],
    into: Option<u32>,
    out: &mut List<Constraint>,
) -> Result<(), AllocError>
    ensures { OnOk result (out.new ≡ out.old ++ (spec.argument_constraints function arguments.now callee 0 ++ spec.result_constraints function callee into)) }
{
    push_arguments(function, arguments, callee, out)?;
    push_result(function, callee, into, out)
}

/// A started function gets its argument, and gives its result to those that join the thread.
fn push_create(
    function: u32,
    started: u32,
    argument: u32,
    out: &mut List<Constraint>,
) -> Result<(), AllocError>
    ensures { OnOk result (out.new ≡ out.old ++ spec.library_constraints function (call.Create started) (0 ∷ argument ∷ [])) }
{
    out.push(Constraint::Included {
        from: Node::Register {
            function,
            register: argument,
        },
        to: Node::Register {
            function: started,
            register: 0,
        },
    })?;
    out.push(Constraint::Included {
        from: Node::Result(started),
        to: Node::Ended,
    })
}

/// The constraints of a library call.
fn push_library(
    function: u32,
    call: &LibraryCall,
    arguments: &[u32],
    out: &mut List<Constraint>,
) -> Result<(), AllocError>
    ensures { OnOk result (out.new ≡ out.old ++ spec.library_constraints function call.now arguments.now) }
{
    match (call, arguments) {
        (LibraryCall::Create { function: started }, [_, argument]) => {
            push_create(function, *started, *argument, out)
        }
        (LibraryCall::Join, [_, into]) => out.push(Constraint::Stored {
            through: Node::Register {
                function,
                register: *into,
            },
            from: Node::Ended,
        }),
        (LibraryCall::Exit, [value]) => out.push(Constraint::Included {
            from: Node::Register {
                function,
                register: *value,
            },
            to: Node::Ended,
        }),
        _ => Ok(()),
    }
}

/// What a function returns.
fn push_return(
    function: u32,
    value: Option<u32>,
    out: &mut List<Constraint>,
) -> Result<(), AllocError>
    ensures { OnOk result (out.new ≡ out.old ++ spec.return_constraints function value) }
{
    match value {
        None => Ok(()),
        Some(register) => out.push(Constraint::Included {
            from: Node::Register { function, register },
            to: Node::Result(function),
        }),
    }
}

/// The constraints of the instruction at this place.
fn push_act(
    function: u32,
    instrs: &[Instr],
    amount: Option<i64>,
    at: usize,
    act: &Act,
    out: &mut List<Constraint>,
) -> Result<(), AllocError>
    requires { amount ≡ amount_by (constant_at instrs.now at) (Some act.now) }
    ensures { OnOk result (out.new ≡ out.old ++ spec.act_constraints function instrs.now at act.now) }
{
    match act {
        Act::Compute { into, work } => { push_work(function, instrs, amount, at, *into, work, out) }
        Act::Alloc { into, site, .. } => out.push(given(register_of(function, *into), *site)),
        Act::LoadCell { into, through } => out.push(Constraint::Loaded {
            through: register_of(function, *through),
            into: register_of(function, *into),
        }),
        Act::StoreCell { through, from } => out.push(Constraint::Stored {
            through: register_of(function, *through),
            from: register_of(function, *from),
        }),
        Act::Call {
            function: callee,
            arguments,
            into,
        } => push_call(function, *callee, arguments.as_slice(), *into, out),
        Act::Library {
            call,
            arguments,
            ..
        } => push_library(function, call, arguments.as_slice(), out),
        Act::Return { value } => push_return(function, *value, out),
        _ => Ok(()),
    }
}

/// The constraints of a function's instructions.
fn push_instrs(
    function: u32,
    instrs: &[Instr],
    amounts: &[Option<i64>],
    out: &mut List<Constraint>,
) -> Result<(), AllocError>
    requires amounts { AreAmounts instrs.now amounts.now }
    requires length { length amounts.now ≡ length instrs.now }
    ensures { OnOk result (out.new ≡ out.old ++ spec.instrs_constraints function instrs.now 0 instrs.now) }
{
    for at in 0..instrs.len() {
        push_act(function, instrs, amounts[at], at, &instrs[at].act, out)?;
    }
    Ok(())
}

fn push_function(
    alloc: Global,
    number: u32,
    function: &Function,
    out: &mut List<Constraint>,
) -> Result<(), AllocError>
    ensures { OnOk result (out.new ≡ out.old ++ spec.instrs_constraints number function.now.instrs 0 function.now.instrs) }
{
    let instrs = function.instrs.as_slice();
    let starts = block_starts(alloc, instrs)?;
    let amounts = amounts(alloc, instrs, starts.as_slice())?;
    push_instrs(number, instrs, amounts.as_slice(), out)
}

fn push_functions(
    alloc: Global,
    functions: &[Function],
    out: &mut List<Constraint>,
) -> Result<(), AllocError>
    ensures { OnOk result (out.new ≡ out.old ++ spec.functions_constraints 0 functions.now) }
{
    let mut number = 0;
    for function in functions {
        push_function(alloc, number, function, out)?;
        number = sum(number, 1)?;
    }
    Ok(())
}

/// The constraints of a code.
pub fn constraints_of(alloc: Global, code: &Code) -> Result<List<Constraint>, AllocError>
    requires sites { length code.now.sites ≤ 1023 }
    requires elements { (s : ℕ) → 1 ≤ spec.element_of code.now.sites s }
    ensures { IfOk result (λ cs. cs ≡ spec.constraints_of code.now) }
{
    let mut out = List::new(alloc);
    push_functions(alloc, code.functions.as_slice(), &mut out)?;
    push_sites(code, &mut out)?;
    Ok(out)
}
