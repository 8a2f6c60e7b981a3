// An order in which functions are visited: those that a function calls come before it, but where functions call each other
// in a circle. Then most of what called functions tell is known as their callers are visited.
ghost use Rattle.std.specs.Prelude.{◌≡◌, ◌<◌, ℕ, length, slice_get, IfOk, OnOk, Some};
ghost use Rattle.lockset_summary.specs.Visits.{IsListed, IsOrder, IsSearch};

use flow_code::{Act, Code};
use rr_base::List;
use std::alloc::{AllocError, Global};

// How far the search has come with a function.
#[derive(Clone, Copy)]
enum Mark {
    Unseen,
    // Its calls are followed from this instruction on.
    Open(usize),
    Listed,
}

// A depth-first search along the calls.
#[derive(Drop)]
struct Search {
    marks: List<Mark>,
    // The open functions, each called by the one before it.
    path: List<usize>,
    // The functions that are listed.
    order: List<usize>,
}

#[tactic(auto, using(crate::proofs::Visiting::none_seen))]
fn start(alloc: Global, code: &Code) -> Result<Search, AllocError>
    ensures { IfOk result (IsSearch (length code.now.functions)) }
{
    let mut marks = List::new(alloc);
    for _f in 0..code.functions.len() {
        marks.push(Mark::Unseen)?;
    }
    Ok(Search {
        marks,
        path: List::new(alloc),
        order: List::new(alloc),
    })
}

// Goes on with a function's calls from an instruction on.
fn enter(_code: &Code, search: &mut Search, f: usize, k: usize) -> Result<(), AllocError>
    requires search { IsSearch (length _code.now.functions) search.old }
    requires within { f < length _code.now.functions }
    ensures { OnOk result (IsSearch (length _code.now.functions) search.new) }
{
    search.path.push(f)?;
    search.marks.set(f, Mark::Open(k));
    Ok(())
}

// Lists a function whose calls have all been followed.
fn leave(_code: &Code, search: &mut Search, f: usize) -> Result<(), AllocError>
    requires search { IsSearch (length _code.now.functions) search.old }
    requires within { f < length _code.now.functions }
    ensures search { OnOk result (IsSearch (length _code.now.functions) search.new) }
    ensures listed { OnOk result (IsListed search.new f) }
    ensures kept { OnOk result ((g : ℕ) → IsListed search.old g → IsListed search.new g) }
{
    search.order.push(f)?;
    search.marks.set(f, Mark::Listed);
    Ok(())
}

// Opens a function that hasn't been seen.
fn open_unseen(code: &Code, search: &mut Search, f: usize) -> Result<(), AllocError>
    requires { IsSearch (length code.now.functions) search.old }
    ensures { OnOk result (IsSearch (length code.now.functions) search.new) }
{
    if f >= search.marks.len() {
        return Ok(());
    }
    match search.marks.at(f) {
        Mark::Unseen => enter(code, search, f, 0),
        _ => Ok(()),
    }
}

// Follows a call.
fn follow(code: &Code, search: &mut Search, act: &Act) -> Result<(), AllocError>
    requires { IsSearch (length code.now.functions) search.old }
    ensures { OnOk result (IsSearch (length code.now.functions) search.new) }
{
    match act {
        Act::Call { function, .. } => open_unseen(code, search, *function as usize),
        _ => Ok(()),
    }
}

// Follows the k-th instruction of a function, or lists the function if that was its last.
fn visit(code: &Code, search: &mut Search, f: usize, k: usize) -> Result<(), AllocError>
    requires search { IsSearch (length code.now.functions) search.old }
    requires within { f < length code.now.functions }
    ensures { OnOk result (IsSearch (length code.now.functions) search.new) }
{
    let instrs = code.functions.at(f).instrs.as_slice();
    if k >= instrs.len() {
        return leave(code, search, f);
    }
    enter(code, search, f, k + 1)?;
    follow(code, search, &instrs[k].act)
}

// Takes one step with the function that was opened last.
fn step(code: &Code, search: &mut Search) -> Result<(), AllocError>
    requires { IsSearch (length code.now.functions) search.old }
    ensures { OnOk result (IsSearch (length code.now.functions) search.new) }
{
    let Some(f) = search.path.pop() else {
        return Ok(());
    };
    match *search.marks.at(f) {
        Mark::Open(k) => visit(code, search, f, k),
        _ => Ok(()),
    }
}

// Lists a function after those that it calls. The search ends, since no function is opened twice.
fn search_from(code: &Code, search: &mut Search, f: usize) -> Result<(), AllocError>
    requires { IsSearch (length code.now.functions) search.old }
    ensures { OnOk result (IsSearch (length code.now.functions) search.new) }
{
    open_unseen(code, search, f)?;
    for _step in 0..u64::MAX {
        if search.path.is_empty() {
            return Ok(());
        }
        step(code, search)?;
    }
    Ok(())
}

// Lists a function that isn't yet.
fn list_left(code: &Code, search: &mut Search, f: usize) -> Result<(), AllocError>
    requires search { IsSearch (length code.now.functions) search.old }
    requires within { f < length code.now.functions }
    ensures search { OnOk result (IsSearch (length code.now.functions) search.new) }
    ensures listed { OnOk result (IsListed search.new f) }
    ensures kept { OnOk result ((g : ℕ) → IsListed search.old g → IsListed search.new g) }
{
    match search.marks.at(f) {
        Mark::Listed => Ok(()),
        _ => leave(code, search, f),
    }
}

// Lists all functions that aren't yet.
fn list_all_left(code: &Code, search: &mut Search) -> Result<(), AllocError>
    requires { IsSearch (length code.now.functions) search.old }
    ensures search { OnOk result (IsSearch (length code.now.functions) search.new) }
    ensures listed { OnOk result ((g : ℕ) → g < length code.now.functions → IsListed search.new g) }
{
    for f in 0..code.functions.len() {
        list_left(code, search, f)?;
    }
    Ok(())
}

/// The k-th function of an order.
pub fn function_at(_code: &Code, order: &[usize], k: usize) -> usize
    requires order { IsOrder (length _code.now.functions) order.now }
    requires within { k < length order.now }
    ensures value { slice_get order.now k ≡ Some result }
    ensures within { result < length _code.now.functions }
{
    order[k]
}

/// The functions of the code, each after those that it calls, but where they call each other in a circle.
pub fn order_of(alloc: Global, code: &Code) -> Result<List<usize>, AllocError>
    ensures { IfOk result (IsOrder (length code.now.functions)) }
{
    let mut search = start(alloc, code)?;
    for f in 0..code.functions.len() {
        search_from(code, &mut search, f)?;
    }
    list_all_left(code, &mut search)?;
    let Search {
        marks: _,
        path: _,
        order,
    } = search;
    Ok(order)
}
