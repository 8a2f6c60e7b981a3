// The registers, functions and sites that an instruction names, and the kinds of its registers.
ghost use Rattle.std.specs.Prelude.{◌≡◌, take, Some, None};
ghost use Rattle.std.specs.Option.{option_copied};
ghost use Rattle.word_semantics.specs.Kinds as kinds;
ghost use Rattle.flow_code.specs.Kinds as spec;

use crate::act::Act;
use crate::addresses::is_address;
use crate::code::{Code, Function};
use crate::entering::is_main;
use crate::work::Work;
use crate::works::is_pointer;
use word_semantics::{BinaryOp, LibraryCall, Piece};

pub(crate) fn has_register(function: &Function, r: u32) -> bool
    ensures { result ≡ spec.has_register function.now r }
{
    r < function.registers
}

pub(crate) fn has_pointer(function: &Function, r: u32) -> bool
    ensures { result ≡ spec.has_pointer function.now r }
{
    has_register(function, r) && is_pointer(function.pointers.as_slice(), r)
}

pub(crate) fn has_whole(function: &Function, r: u32) -> bool
    ensures { result ≡ spec.has_whole function.now r }
{
    has_register(function, r) && !is_pointer(function.pointers.as_slice(), r)
}

fn has_kind(function: &Function, pointer: bool, r: u32) -> bool
    ensures { result ≡ spec.has_kind function.now pointer r }
{
    if pointer {
        has_pointer(function, r)
    } else {
        has_whole(function, r)
    }
}

fn same_register_kind(function: &Function, r: u32, q: u32) -> bool
    ensures { result ≡ spec.same_register_kind function.now r q }
{
    has_kind(function, is_pointer(function.pointers.as_slice(), r), q) && has_register(function, r)
}

// Whether the registers are as many as the kinds, and of these.
fn have_kinds(function: &Function, arguments: &[u32], kinds: &[bool]) -> bool
    ensures { result ≡ spec.have_kinds function.now arguments.now kinds.now }
{
    let mut rest = arguments;
    let mut wanted = kinds;
    while let [r, more @ ..] = rest {
        let [kind, others @ ..] = wanted else {
            return false;
        };
        if !has_kind(function, *kind, *r) {
            return false;
        }
        rest = more;
        wanted = others;
    }
    matches!(wanted, [])
}

fn is_comparison(op: BinaryOp) -> bool
    ensures { result ≡ kinds.is_comparison op }
{
    matches!(
        op,
        BinaryOp::Less
            | BinaryOp::LessEqual
            | BinaryOp::Greater
            | BinaryOp::GreaterEqual
            | BinaryOp::Equal
            | BinaryOp::NotEqual
    )
}

fn is_null(value: i64) -> bool
    ensures { result ≡ spec.is_null value }
{
    value == 0
}

pub(crate) fn is_site(code: &Code, site: u16) -> bool
    ensures { result ≡ spec.is_site code.now site }
{
    1 <= site && usize::from(site) <= code.sites.len()
}

fn binary_fits(function: &Function, into: u32, op: BinaryOp, left: u32, right: u32) -> bool
    ensures { result ≡ spec.binary_fits function.now into op left right }
{
    has_whole(function, into)
        && (!is_pointer(function.pointers.as_slice(), left) || is_comparison(op))
        && same_register_kind(function, left, right)
}

fn move_fits(function: &Function, into: u32, pointer: u32, by: u32, element: u32) -> bool
    ensures { result ≡ spec.move_fits function.now into pointer by element }
{
    has_pointer(function, into)
        && has_pointer(function, pointer)
        && has_whole(function, by)
        && 1 <= element
}

fn between_fits(function: &Function, into: u32, left: u32, right: u32, element: u32) -> bool
    ensures { result ≡ spec.between_fits function.now into left right element }
{
    has_whole(function, into)
        && has_pointer(function, left)
        && has_pointer(function, right)
        && 1 <= element
}

// Whether the registers of a work are of the kinds that it takes and gives.
fn work_fits(code: &Code, function: &Function, into: u32, work: &Work) -> bool
    ensures { result ≡ spec.work_fits code.now function.now into work.now }
{
    match *work {
        Work::Constant(value) => {
            has_register(function, into)
                && (is_null(value) || !is_pointer(function.pointers.as_slice(), into))
        }
        Work::Address(word) => has_pointer(function, into) && is_address(code, word.word()),
        Work::Copy(r) => same_register_kind(function, into, r),
        Work::Minus(r) | Work::Complement(r) => has_whole(function, into) && has_whole(function, r),
        Work::Not(r) => has_whole(function, into) && has_register(function, r),
        Work::Binary { op, left, right } => binary_fits(function, into, op, left, right),
        Work::Move {
            pointer,
            by,
            element,
            back: _,
        } => move_fits(function, into, pointer, by, element),
        Work::Member { pointer, by: _ } => {
            has_pointer(function, into) && has_pointer(function, pointer)
        }
        Work::Between {
            left,
            right,
            element,
        } => between_fits(function, into, left, right, element),
        Work::ToPointer(r) => has_pointer(function, into) && has_whole(function, r),
        Work::ToNumber(r) => has_whole(function, into) && has_pointer(function, r),
    }
}

fn value_fits(function: &Function, into: Option<u32>, pointer: bool) -> bool
    ensures { result ≡ spec.value_fits function.now into pointer }
{
    match into {
        Some(r) => has_kind(function, pointer, r),
        None => true,
    }
}

fn formal_kinds(function: &Function) -> &[bool]
    ensures { result.now ≡ spec.formal_kinds function.now }
{
    let kinds = function.pointers.as_slice();
    let formals = function.formals as usize;
    if formals < kinds.len() {
        &kinds[..formals]
    } else {
        kinds
    }
}

// Whether a call of the function is one of a function other than `main`, with an argument for each formal.
fn call_fits(
    function: &Function,
    arguments: &[u32],
    into: Option<u32>,
    called: Option<&Function>,
) -> bool
    ensures { result ≡ spec.call_fits function.now arguments.now into (option_copied called.entry) }
{
    match called {
        Some(called) => {
            !is_main(called.name.as_slice())
                && have_kinds(function, arguments, formal_kinds(called))
                && value_fits(function, into, called.gives_pointer)
        }
        None => false,
    }
}

// Whether a thread may be started with the function (POSIX pthread_create).
fn may_start(started: Option<&Function>) -> bool
    ensures { result ≡ spec.may_start (option_copied started.entry) }
{
    match started {
        Some(started) => {
            !is_main(started.name.as_slice())
                && started.formals == 1
                && is_pointer(started.pointers.as_slice(), 0)
                && started.gives_pointer
        }
        None => false,
    }
}

fn starts_fit(code: &Code, call: &LibraryCall) -> bool
    ensures { result ≡ spec.starts_fit code.now call.now }
{
    match call {
        LibraryCall::Create { function } => may_start(code.functions.get(*function as usize)),
        _ => true,
    }
}

// Whether the arguments are whole numbers, one for each number and letter of a format.
fn fit_format(function: &Function, arguments: &[u32], format: &[Piece]) -> bool
    ensures { result ≡ spec.have_kinds function.now arguments.now (kinds.format_kinds format.now) }
{
    let mut rest = arguments;
    let mut pieces = format;
    while let [piece, others @ ..] = pieces {
        match piece {
            Piece::Byte(_) => {}
            Piece::Number | Piece::Letter => {
                let [r, more @ ..] = rest else {
                    return false;
                };
                if !has_whole(function, *r) {
                    return false;
                }
                rest = more;
            }
        }
        pieces = others;
    }
    have_kinds(function, rest, &[])
}

// Whether the arguments of a call of the library are as many as it has, and of their kinds.
fn arguments_fit(function: &Function, arguments: &[u32], call: &LibraryCall) -> bool
    ensures { result ≡ spec.have_kinds function.now arguments.now (kinds.library_kinds call.now) }
{
    match call {
        LibraryCall::Create { function: _ } => have_kinds(function, arguments, &[true, true]),
        LibraryCall::CondWait => have_kinds(function, arguments, &[true, true]),
        LibraryCall::Join => have_kinds(function, arguments, &[false, true]),
        LibraryCall::SameThread => have_kinds(function, arguments, &[false, false]),
        LibraryCall::BarrierInit => have_kinds(function, arguments, &[true, false]),
        LibraryCall::PutChar => have_kinds(function, arguments, &[false]),
        LibraryCall::SelfNumber => have_kinds(function, arguments, &[]),
        LibraryCall::GetChar => have_kinds(function, arguments, &[]),
        LibraryCall::Print { format } => fit_format(function, arguments, format.as_slice()),
        LibraryCall::Exit
        | LibraryCall::MutexInit
        | LibraryCall::MutexLock
        | LibraryCall::MutexUnlock
        | LibraryCall::MutexTryLock
        | LibraryCall::MutexDestroy
        | LibraryCall::CondInit
        | LibraryCall::CondSignal
        | LibraryCall::CondDestroy
        | LibraryCall::BarrierWait
        | LibraryCall::BarrierDestroy
        | LibraryCall::RwInit
        | LibraryCall::RwRdLock
        | LibraryCall::RwWrLock
        | LibraryCall::RwUnlock
        | LibraryCall::RwDestroy
        | LibraryCall::Free => have_kinds(function, arguments, &[true]),
    }
}

fn library_value_fits(function: &Function, into: Option<u32>, call: &LibraryCall) -> bool
    ensures { result ≡ spec.library_value_fits function.now into call.now }
{
    match call {
        LibraryCall::Exit | LibraryCall::Free => into.is_none(),
        _ => value_fits(function, into, false),
    }
}

fn library_fits(
    code: &Code,
    function: &Function,
    call: &LibraryCall,
    arguments: &[u32],
    into: Option<u32>,
) -> bool
    ensures { result ≡ spec.library_fits code.now function.now call.now arguments.now into }
{
    starts_fit(code, call)
        && arguments_fit(function, arguments, call)
        && library_value_fits(function, into, call)
}

pub(crate) fn has_instr(function: &Function, at: u32) -> bool
    ensures { result ≡ spec.has_instr function.now at }
{
    (at as usize) < function.instrs.len()
}

fn has_region(function: &Function, region: u32) -> bool
    ensures { result ≡ spec.has_region function.now region }
{
    (region as usize) < function.regions.len()
}

// Whether all that an instruction names is there, and its registers are of the kinds that it takes and gives.
pub(crate) fn act_fits(code: &Code, function: &Function, act: &Act) -> bool
    ensures { result ≡ spec.act_fits code.now function.now act.now }
{
    match act {
        Act::Compute { into, work } => work_fits(code, function, *into, work),
        Act::Alloc { into, site, size } => {
            has_pointer(function, *into)
                && is_site(code, *site)
                && value_fits(function, *size, false)
        }
        Act::LoadCell { into, through } => {
            has_register(function, *into) && has_pointer(function, *through)
        }
        Act::StoreCell { through, from } => {
            has_pointer(function, *through) && has_register(function, *from)
        }
        Act::Mark => true,
        Act::Call {
            function: called,
            arguments,
            into,
        } => call_fits(
            function,
            arguments.as_slice(),
            *into,
            code.functions.get(*called as usize),
        ),
        Act::Library {
            call,
            arguments,
            into,
        } => library_fits(code, function, call, arguments.as_slice(), *into),
        Act::Jump { to } => has_instr(function, *to),
        Act::Branch {
            on,
            then_at,
            else_at,
        } => {
            has_register(function, *on)
                && has_instr(function, *then_at)
                && has_instr(function, *else_at)
        }
        Act::Return { value } => value_fits(function, *value, function.gives_pointer),
        Act::Take(region) => has_region(function, *region),
        Act::Give(region) => has_region(function, *region),
    }
}
