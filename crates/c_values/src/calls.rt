//! Calls of the library, of functions of the source, and through pointers to them (C99 6.5.2.2; POSIX.1-2017 threads).
ghost use Rattle.std.specs.Prelude.{◌≡◌, ℕ, ◌++◌, ◌∷◌, [], List, IfOk, OnOk, map};
ghost use Rattle.std.specs.Option.{option_map};
ghost use Rattle.c_tree.specs.Tree.{listed};
ghost use Rattle.c_tree.specs.View as tree;
ghost use Rattle.c_types.specs.Signatures.{signature_numbered};
ghost use Rattle.c_names.specs.Table.{known_of};
ghost use Rattle.c_types.specs.declared.format.Inside.TheVariants as met;
ghost use Rattle.core_tree.specs.View.{exp_of};
ghost use Rattle.c_operators.specs.Views.{part_of};
ghost use Rattle.c_values.specs.Calls as spec;

use c_names::{Table, third_name};
use c_operators::{Part, WordKind, function_counted, make, pointer_counted};
use c_tree::Expr;
use c_types::{Inside, LibraryName, Names, Operand, Signature, StarredType, TypeRef, Wanted};
use core_tree::Value;
use rr_base::{List, Position};
use std::alloc::{AllocError, Global};
use word_semantics::{LibraryCall, Piece};

/// The bytes, each as a piece.
fn bytes_pieces(alloc: Global, text: &[u8]) -> Result<List<Piece>, AllocError>
    ensures { IfOk result (λ ps. ps ≡ spec.bytes_pieces text.now) }
{
    let mut pieces = List::new(alloc);
    for byte in text {
        pieces.push(Piece::Byte(*byte))?;
    }
    Ok(pieces)
}

/// A byte more of a format: the piece that it ends goes to the others, and what the bytes so far end in is returned.
fn push_met(pieces: &mut List<Piece>, inside: Inside, byte: u8) -> Result<Inside, AllocError>
    ensures { IfOk result (λ i. (rest : List ℕ) → pieces.new ++ spec.pieces_from i rest ≡ pieces.old ++ spec.pieces_from inside (byte ∷ rest)) }
{
    match inside {
        Inside::Text => {
            if byte == b'%' {
                Ok(Inside::Percent)
            } else {
                pieces.push(Piece::Byte(byte))?;
                Ok(Inside::Text)
            }
        }
        Inside::Percent => push_conversion(pieces, byte),
        Inside::Long => {
            if byte == b'l' {
                Ok(Inside::LongLong)
            } else {
                pieces.push(Piece::Number)?;
                Ok(Inside::Text)
            }
        }
        Inside::LongLong => {
            pieces.push(Piece::Number)?;
            Ok(Inside::Text)
        }
    }
}

/// A byte after a percent sign.
fn push_conversion(pieces: &mut List<Piece>, byte: u8) -> Result<Inside, AllocError>
    ensures { IfOk result (λ i. (rest : List ℕ) → pieces.new ++ spec.pieces_from i rest ≡ pieces.old ++ spec.pieces_from met.Percent (byte ∷ rest)) }
{
    if byte == b'%' {
        pieces.push(Piece::Byte(b'%'))?;
        Ok(Inside::Text)
    } else if byte == b'c' {
        pieces.push(Piece::Letter)?;
        Ok(Inside::Text)
    } else if byte == b'l' {
        Ok(Inside::Long)
    } else {
        pieces.push(Piece::Number)?;
        Ok(Inside::Text)
    }
}

/// The pieces of a format, in which `%%` is a percent sign, `%c` a letter, and each other conversion a number.
fn format_pieces(alloc: Global, text: &[u8]) -> Result<List<Piece>, AllocError>
    ensures { IfOk result (λ ps. ps ≡ spec.format_pieces text.now) }
{
    let mut pieces = List::new(alloc);
    let mut inside = Inside::Text;
    for byte in text {
        inside = push_met(&mut pieces, inside, *byte)?;
    }
    Ok(pieces)
}

/// The text that stands first.
fn first_text(es: &[Expr]) -> &[u8]
    ensures { result.now ≡ spec.first_text (listed (map tree.exp_of es.now)) }
{
    match es {
        [Expr::Text { bytes, .. }, ..] => bytes.as_slice(),
        _ => &[],
    }
}

/// Whether a pointer to an object is wanted.
pub fn is_pointer_wanted(of: StarredType) -> bool
    ensures { result ≡ spec.is_pointer_wanted of }
{
    of.stars > 0
}

/// A number or a pointer, as it is wanted.
fn kind_wanted(of: StarredType) -> WordKind
    ensures { result ≡ spec.kind_wanted of }
{
    WordKind::of(Operand::of_type(TypeRef::starred(of.stars, of.base)))
}

/// Whether a function with this result gives a pointer.
pub fn gives_pointer(of: Option<StarredType>) -> bool
    ensures { result ≡ spec.gives_pointer of }
{
    match of {
        None => false,
        Some(of) => is_pointer_wanted(of),
    }
}

/// An operand more, where the call takes it: attributes, formats and the function with which a thread starts are none.
pub fn push_argument(
    alloc: Global,
    wanted: Wanted,
    part: Part,
    out: &mut List<Value>,
) -> Result<(), AllocError>
    ensures { OnOk result (map exp_of out.new ≡ map exp_of out.old ++ spec.operand_for wanted (part_of part.entry)) }
{
    match wanted {
        Wanted::Fits(of) => {
            let value = part.into_wanted(alloc, kind_wanted(of))?;
            out.push(Box::into_inner(value))
        }
        Wanted::Anything => {
            let value = part.into_value(alloc)?;
            out.push(Box::into_inner(value))
        }
        Wanted::Attribute | Wanted::Root | Wanted::Text => Ok(()),
    }
}

/// The number of the function with which a thread starts.
fn started_function(table: &Table, name: Option<&[u8]>) -> Result<u32, AllocError>
    ensures { IfOk result (λ n. n ≡ spec.started_function (known_of table.now) (option_map (λ x. x.now) name.entry)) }
{
    match name {
        None => Ok(0),
        Some(name) => function_counted(table.function_numbered(name)),
    }
}

/// What a `puts` prints.
fn line_pieces(alloc: Global, text: &[u8]) -> Result<List<Piece>, AllocError>
    ensures { IfOk result (λ ps. ps ≡ spec.bytes_pieces text.now ++ spec.byte_piece 10 ∷ []) }
{
    let mut pieces = bytes_pieces(alloc, text)?;
    pieces.push(Piece::Byte(b'\n'))?;
    Ok(pieces)
}

/// The call of the library.
fn library_of(
    alloc: Global,
    table: &Table,
    call: LibraryName,
    es: &[Expr],
) -> Result<LibraryCall, AllocError>
    ensures { IfOk result (λ c. c ≡ spec.library_of (known_of table.now) call (listed (map tree.exp_of es.now))) }
{
    match call {
        LibraryName::Create => {
            let function = started_function(table, third_name(es))?;
            Ok(LibraryCall::Create { function })
        }
        LibraryName::PrintFormat => {
            let format = format_pieces(alloc, first_text(es))?;
            Ok(LibraryCall::Print { format })
        }
        LibraryName::PutText => {
            let format = line_pieces(alloc, first_text(es))?;
            Ok(LibraryCall::Print { format })
        }
        LibraryName::Join => Ok(LibraryCall::Join),
        LibraryName::Exit => Ok(LibraryCall::Exit),
        LibraryName::SelfNumber => Ok(LibraryCall::SelfNumber),
        LibraryName::SameThread => Ok(LibraryCall::SameThread),
        LibraryName::MutexInit => Ok(LibraryCall::MutexInit),
        LibraryName::MutexLock => Ok(LibraryCall::MutexLock),
        LibraryName::MutexUnlock => Ok(LibraryCall::MutexUnlock),
        LibraryName::MutexTryLock => Ok(LibraryCall::MutexTryLock),
        LibraryName::MutexDestroy => Ok(LibraryCall::MutexDestroy),
        LibraryName::CondInit => Ok(LibraryCall::CondInit),
        LibraryName::CondWait => Ok(LibraryCall::CondWait),
        LibraryName::CondSignal | LibraryName::CondBroadcast => Ok(LibraryCall::CondSignal),
        LibraryName::CondDestroy => Ok(LibraryCall::CondDestroy),
        LibraryName::BarrierInit => Ok(LibraryCall::BarrierInit),
        LibraryName::BarrierWait => Ok(LibraryCall::BarrierWait),
        LibraryName::BarrierDestroy => Ok(LibraryCall::BarrierDestroy),
        LibraryName::RwInit => Ok(LibraryCall::RwInit),
        LibraryName::RwRdLock => Ok(LibraryCall::RwRdLock),
        LibraryName::RwWrLock => Ok(LibraryCall::RwWrLock),
        LibraryName::RwUnlock => Ok(LibraryCall::RwUnlock),
        LibraryName::RwDestroy => Ok(LibraryCall::RwDestroy),
        LibraryName::Malloc | LibraryName::Free => Ok(LibraryCall::Free),
        LibraryName::GetChar => Ok(LibraryCall::GetChar),
        LibraryName::PutChar => Ok(LibraryCall::PutChar),
    }
}

#[tactic(auto, using(crate::proofs::Pieces::first_met, crate::proofs::Pieces::first_there))]
/// The first operand; 0 where there is none.
fn first_of(
    alloc: Global,
    mut arguments: List<Value>,
    at: Position,
) -> Result<Box<Value>, AllocError>
    ensures { IfOk result (λ v. exp_of v.value ≡ spec.first_of (map exp_of arguments) at) }
{
    if arguments.is_empty() {
        make::number(alloc, 0, at)
    } else {
        make::boxed(alloc, arguments.remove(0))
    }
}

#[tactic(auto, using(crate::proofs::Pieces::library_other))]
/// A call of the library. The site is that of a `malloc`.
pub fn library_called(
    alloc: Global,
    table: &Table,
    site: u16,
    call: Option<LibraryName>,
    es: &[Expr],
    arguments: List<Value>,
    at: Position,
) -> Result<Box<Value>, AllocError>
    ensures { IfOk result (λ v. exp_of v.value ≡ spec.library_called (known_of table.now) site call (listed (map tree.exp_of es.now)) (map exp_of arguments) at) }
{
    match call {
        None => make::number(alloc, 0, at),
        Some(LibraryName::Malloc) => {
            let size = first_of(alloc, arguments, at)?;
            make::allocate(alloc, site, size, at)
        }
        Some(call) => {
            let call = library_of(alloc, table, call, es)?;
            make::library(alloc, call, arguments, at)
        }
    }
}

/// A call of a function of the source.
pub fn function_called(
    alloc: Global,
    table: &Table,
    name: &[u8],
    signature: &Signature,
    arguments: List<Value>,
    at: Position,
) -> Result<Box<Value>, AllocError>
    ensures { IfOk result (λ v. exp_of v.value ≡ spec.function_called (known_of table.now) name.now signature.now (map exp_of arguments) at) }
{
    let function = function_counted(table.function_numbered(name))?;
    let gives = gives_pointer(signature.result);
    make::call(alloc, function, arguments, gives, at)
}

/// Whether calls through pointers of the type give a pointer.
fn pointed_gives(table: &Table, number: usize) -> bool
    ensures { result ≡ spec.pointed_gives (signature_numbered (known_of table.now) number) }
{
    match table.signature_numbered(number) {
        None => false,
        Some(signature) => gives_pointer(signature.result),
    }
}

/// A call through a pointer to functions, which is evaluated before the arguments.
pub fn pointer_called(
    alloc: Global,
    table: &Table,
    number: Option<usize>,
    held: Box<Value>,
    arguments: List<Value>,
    at: Position,
) -> Result<Box<Value>, AllocError>
    ensures { IfOk result (λ v. exp_of v.value ≡ spec.pointer_called (known_of table.now) number (exp_of held.value) (map exp_of arguments) at) }
{
    let Some(number) = number else {
        return make::number(alloc, 0, at);
    };
    let mut operands = List::new(alloc);
    operands.push(Box::into_inner(held))?;
    operands.append(arguments)?;
    let called = pointer_counted(table, number)?;
    make::call(alloc, called, operands, pointed_gives(table, number), at)
}
