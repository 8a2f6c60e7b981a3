use rr_base::{List, Trap};
use std::test::Fail;
use word_semantics::{BinaryOp, LibraryCall, Piece, binary, number, piece, piece_len, word};

#[test]
fn operators_give(rt: HostRuntime) {
    let rows = [
        (BinaryOp::Add, i64::MAX, 1, Err(Trap::Overflow)),
        (BinaryOp::Add, -1, 1, Ok(0)),
        (BinaryOp::Subtract, i64::MIN, 1, Err(Trap::Overflow)),
        (BinaryOp::Multiply, -3, 5, Ok(-15)),
        (BinaryOp::Divide, -7, 2, Ok(-3)),
        (BinaryOp::Divide, i64::MIN, -1, Err(Trap::Overflow)),
        (BinaryOp::Remainder, -7, 2, Ok(-1)),
        (BinaryOp::Remainder, i64::MIN, -1, Err(Trap::Overflow)),
        (BinaryOp::Remainder, 7, 0, Err(Trap::DivideByZero)),
        (BinaryOp::ShiftLeft, 1, 62, Ok(1 << 62)),
        (BinaryOp::ShiftLeft, 1, 63, Err(Trap::Overflow)),
        (BinaryOp::ShiftLeft, 1, 64, Err(Trap::ShiftRange)),
        (BinaryOp::ShiftRight, -8, 1, Ok(-4)),
        (BinaryOp::Less, -1, 0, Ok(1)),
        (BinaryOp::NotEqual, 4, 4, Ok(0)),
    ];
    for &(op, left, right, want) in &rows {
        assert_eq!(rt;
            binary(op, word(left), word(right)).map(|given| number(given)),
            want,
            "{op:?} of {left} and {right}"
        );
    }
}

#[test]
fn calls_print(rt: HostRuntime) -> Result<(), Fail> {
    let alloc = rt.alloc();
    let registers = [word(-5), 256 + 65, 10];
    let format = [
        Piece::Byte(b'x'),
        Piece::Number,
        Piece::Letter,
        Piece::Byte(b'\n'),
    ];
    let call = LibraryCall::Print {
        format: List::from_slice(alloc, &format)?,
    };
    let rows = [
        (&call, [0, 1].as_slice(), b"x-5A\n".as_slice()),
        (&call, [1].as_slice(), b"x321\n".as_slice()),
        (&LibraryCall::PutChar, [1].as_slice(), b"A".as_slice()),
        (&LibraryCall::GetChar, [].as_slice(), b"".as_slice()),
    ];
    for (call, arguments, want) in rows {
        assert_eq!(rt; piece(alloc, call, &registers, arguments)?.as_slice(), want);
        assert_eq!(rt; piece_len(call, &registers, arguments), want.len() as u128);
    }
    Ok(())
}
