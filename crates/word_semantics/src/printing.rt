// What calls print.
ghost use Rattle.std.specs.Prelude.{◌≡◌, ◌+◌, ◌<◌, ◌≤◌, ◌++◌, ◌^◌, length, slice_get, IfOk, OnOk, if◌then◌else◌};
ghost use Rattle.std.specs.Fmt.{signed_decimal};
ghost use Rattle.word_semantics.specs.Library as spec;
ghost use Rattle.word_semantics.specs.Registers.{words_of};

use crate::evaluate::number;
use crate::library::argument;
use crate::library_call::{LibraryCall, Piece};
use crate::registers::register;
use itoa::Buffer;
use rr_base::Bytes;
use std::alloc::{AllocError, Global};

// The word of argument `k`, if the call has it.
fn word_at(registers: &[u64], arguments: &[u32], k: usize) -> Option<u64>
    ensures { result ≡ slice_get (words_of registers.now arguments.now) k }
{
    let r = arguments.get(k)?;
    Some(register(registers, *r))
}

// Which argument is next after a piece, where `k` is next before it.
fn next_argument(piece: Piece, k: usize) -> usize
    requires { k + 1 < 2 ^ 64 }
    ensures { result ≡ (if spec.takes_argument piece then k + 1 else k) }
{
    match piece {
        Piece::Byte(_) => k,
        Piece::Number | Piece::Letter => k + 1,
    }
}

fn number_len(number: i64) -> usize
    ensures value { result ≡ length (signed_decimal number) }
    ensures short { result ≤ 40 }
{
    Buffer::new().format(number).len()
}

fn text_len(piece: Piece, word: Option<u64>) -> usize
    ensures value { result ≡ length (spec.text_of piece word) }
    ensures short { result ≤ 40 }
{
    match (piece, word) {
        (Piece::Byte(_), _) => 1,
        (_, None) => 0,
        (Piece::Number, Some(word)) => number_len(number(word)),
        (Piece::Letter, Some(_)) => 1,
    }
}

fn push_text(out: &mut Bytes, piece: Piece, word: Option<u64>) -> Result<(), AllocError>
    ensures { OnOk result (out.new ≡ out.old ++ spec.text_of piece word) }
{
    match (piece, word) {
        (Piece::Byte(byte), _) => out.push(byte),
        (_, None) => Ok(()),
        (Piece::Number, Some(word)) => out.extend_from_slice(
            Buffer::new().format(number(word)).as_bytes(),
        ),
        (Piece::Letter, Some(word)) => out.push((word % 256) as u8),
    }
}

// How many bytes a format prints. Each of up to 2^64 pieces prints up to 20, so the sum has 128 bits.
fn printed_len(format: &[Piece], registers: &[u64], arguments: &[u32]) -> u128
    ensures { result ≡ length (spec.printed_piece format.now (words_of registers.now arguments.now)) }
{
    let mut len = 0;
    let mut next = 0;
    for piece in format {
        len += text_len(*piece, word_at(registers, arguments, next)) as u128;
        next = next_argument(*piece, next);
    }
    len
}

/// How many bytes the call prints.
pub fn piece_len(call: &LibraryCall, registers: &[u64], arguments: &[u32]) -> u128
    ensures { result ≡ length (spec.piece_of call.now (words_of registers.now arguments.now)) }
{
    match call {
        LibraryCall::Print { format } => printed_len(format.as_slice(), registers, arguments),
        LibraryCall::PutChar => 1,
        _ => 0,
    }
}

fn push_printed(
    out: &mut Bytes,
    format: &[Piece],
    registers: &[u64],
    arguments: &[u32],
) -> Result<(), AllocError>
    ensures { OnOk result (out.new ≡ out.old ++ spec.printed_piece format.now (words_of registers.now arguments.now)) }
{
    let mut next = 0;
    for piece in format {
        push_text(out, *piece, word_at(registers, arguments, next))?;
        next = next_argument(*piece, next);
    }
    Ok(())
}

/// The bytes that the call prints.
pub fn piece(
    alloc: Global,
    call: &LibraryCall,
    registers: &[u64],
    arguments: &[u32],
) -> Result<Bytes, AllocError>
    ensures { IfOk result (λ bytes. bytes ≡ spec.piece_of call.now (words_of registers.now arguments.now)) }
{
    let mut bytes = Bytes::new(alloc);
    match call {
        LibraryCall::Print { format } => push_printed(
            &mut bytes,
            format.as_slice(),
            registers,
            arguments,
        )?,
        LibraryCall::PutChar => bytes.push((argument(registers, arguments, 0) % 256) as u8)?,
        _ => {}
    }
    Ok(bytes)
}
