ghost use Rattle.std.specs.Prelude.{◌<◌, length};

use c_lexer::{Kind, LexFault, Token, tokens};
use std::alloc::Global;
use std::fmt::Write;
use std::process::Abort;
use std::test::Fail;

// Each source with its tokens, as `KIND LINE:COLUMN START-END;`, or with its first fault, as `KIND LINE:COLUMN`.
static ROWS: [(&[u8], &str); 97] = [
    (b"int a @;", "BadByte 1:7"),
    (b"0x", "BadByte 1:2"),
    (b"int a; /* x", "OpenComment 1:8"),
    (b"\"ab", "OpenText 1:1"),
    (b"'\\q'", "BadEscape 1:2"),
    (b"9223372036854775808", "WideNumber 1:1"),
    (b"#define int 3", "BadDirective 1:1"),
    // Blanks and places.
    (b"", ""),
    (b"a\x0Cb", "Name a 1:1 0-1;Name b 1:3 2-3;"),
    (b"a\r\n\tb", "Name a 1:1 0-1;Name b 2:2 4-5;"),
    (b"\x0B", "BadByte 1:1"),
    (b"/*/", "OpenComment 1:1"),
    (b"/**/a", "Name a 1:5 4-5;"),
    (b"/* /* */ a", "Name a 1:10 9-10;"),
    (b"/*\x00\xFF\n*/a", "Name a 2:3 7-8;"),
    (b"a//", "Name a 1:1 0-1;"),
    (b"// x\r y\nb", "Name b 2:1 8-9;"),
    (b"const int volatile x", "Int 1:7 6-9;Name x 1:20 19-20;"),
    // Names and words.
    (
        b"constant int_ _a9",
        "Name constant 1:1 0-8;Name int_ 1:10 9-13;Name _a9 1:15 14-17;",
    ),
    (
        b"char restrict",
        "Refused char 1:1 0-4;Refused restrict 1:6 5-13;",
    ),
    (b"NULL sizeof", "Null 1:1 0-4;Sizeof 1:6 5-11;"),
    (b"pthread_rwlock_t", "PthreadRwlockT 1:1 0-16;"),
    (b"printf", "Name printf 1:1 0-6;"),
    // Punctuation.
    (b"->", "Arrow 1:1 0-2;"),
    (b"- >", "Minus 1:1 0-1;Greater 1:3 2-3;"),
    (b"<<=", "ShiftLeftAssign 1:1 0-3;"),
    (b"<<<=", "ShiftLeft 1:1 0-2;LessEqual 1:3 2-4;"),
    (
        b"a+++b",
        "Name a 1:1 0-1;PlusPlus 1:2 1-3;Plus 1:4 3-4;Name b 1:5 4-5;",
    ),
    (b"$", "BadByte 1:1"),
    (b"a \x80", "BadByte 1:3"),
    (b"\xFF", "BadByte 1:1"),
    // Numbers.
    (b"0", "Number 0 1:1 0-1;"),
    (b"0777", "Number 511 1:1 0-4;"),
    (b"08", "BadByte 1:2"),
    (b"1L 2ll", "Number 1 1:1 0-2;Number 2 1:4 3-6;"),
    (b"1lx", "BadByte 1:3"),
    (b"1lL", "BadByte 1:3"),
    (b"7_", "BadByte 1:2"),
    (b"0xg", "BadByte 1:2"),
    (b"0X1fLL", "Number 31 1:1 0-6;"),
    (b"1.5", "Number 1 1:1 0-1;Dot 1:2 1-2;Number 5 1:3 2-3;"),
    (
        b"9223372036854775807",
        "Number 9223372036854775807 1:1 0-19;",
    ),
    (
        b"0x7FFFFFFFFFFFFFFF",
        "Number 9223372036854775807 1:1 0-18;",
    ),
    (
        b"0777777777777777777777",
        "Number 9223372036854775807 1:1 0-22;",
    ),
    (b"01000000000000000000000", "WideNumber 1:1"),
    (b"a 9223372036854775808x", "WideNumber 1:3"),
    // Letters and texts.
    (b"'a'", "Letter 97 1:1 0-3;"),
    (b"'\\0'", "Letter 0 1:1 0-4;"),
    (b"'\"'", "Letter 34 1:1 0-3;"),
    (b"'\xFF'", "Letter 255 1:1 0-3;"),
    (b"'\\012'", "BadEscape 1:2"),
    (b"''", "OpenText 1:1"),
    (b"'''", "OpenText 1:1"),
    (b"'ab'", "OpenText 1:1"),
    (b"'a\\q'", "OpenText 1:1"),
    (b"'\\", "OpenText 1:1"),
    (b"\"\"", "Text [] 1:1 0-2;"),
    (b"\"a\tb'\"", "Text [97, 9, 98, 39] 1:1 0-6;"),
    (b"\"\x80\x7F\"", "Text [128, 127] 1:1 0-4;"),
    (
        b"\"\\n\\t\\r\\0\\\\\\'\\\"\"",
        "Text [10, 9, 13, 0, 92, 39, 34] 1:1 0-16;",
    ),
    (b"\"\\08\"", "Text [0, 56] 1:1 0-5;"),
    (b"\"\\01\"", "BadEscape 1:2"),
    (b"\"a\\q", "BadEscape 1:3"),
    (b"x \"a\nb\"", "OpenText 1:3"),
    (b"\"a\\\nb\"", "OpenText 1:1"),
    (b"\"\x1F\"", "OpenText 1:1"),
    // Directives.
    (b"#include <pthread.h>\n#include \t<stdio.h>", ""),
    (
        b"#include <stdlib.h>// x\n#include <errno.h> /* a */ \t\n;",
        "Semicolon 3:1 53-54;",
    ),
    (b"/* x\n */ const\t#include <stdio.h>", ""),
    (b"a /*\n*/ #include <stdio.h>", "Name a 1:1 0-1;"),
    (b"a #include <stdio.h>", "BadByte 1:3"),
    (b"#include <math.h>", "BadDirective 1:1"),
    (b"#include<stdio.h>", "BadDirective 1:1"),
    (b"# include <stdio.h>", "BadDirective 1:1"),
    (b"#include <stdio.h>\r\n", "BadDirective 1:1"),
    (b"#include <stdio.h> /* a */ // b", "BadDirective 1:1"),
    (b"#include <stdio.h> /* a\n*/", "BadDirective 1:1"),
    (b"\n  #pragma", "BadDirective 2:3"),
    (
        b"N\n #define N 3\nN N1",
        "Name N 1:1 0-1;Number 3 3:1 15-16;Name N1 3:3 17-19;",
    ),
    (b"#define N -0x10L/* x */\nN", "Number -16 2:1 24-25;"),
    (b"#define A 1\n#define A 1", "BadDirective 2:1"),
    (b"#define A 1\n#define B A", "BadDirective 2:1"),
    (b"#define printf 1", "BadDirective 1:1"),
    (b"#define EOF 1", "BadDirective 1:1"),
    (b"#define char 1", "BadDirective 1:1"),
    (b"#define const 1", "BadDirective 1:1"),
    (b"#define N 9223372036854775808", "WideNumber 1:11"),
    (b"#define N -9223372036854775808", "WideNumber 1:12"),
    (b"#define N 9223372036854775808 x", "BadDirective 1:1"),
    (b"#define N 08", "BadDirective 1:1"),
    (b"#define N 0x", "BadDirective 1:1"),
    (b"#define N 1x", "BadDirective 1:1"),
    (b"#define N - 3", "BadDirective 1:1"),
    (b"#define N\t(3)", "BadDirective 1:1"),
    (b"#define 3 3", "BadDirective 1:1"),
    (b"#define N3", "BadDirective 1:1"),
    (b"#defineN 3", "BadDirective 1:1"),
];

fn write_spelled(out: &mut String, kind: &str, bytes: &[u8]) -> Result<(), Fail> {
    write!(out, "{kind} ")?;
    for b in bytes {
        out.push(char::from(*b))?;
    }
    Ok(())
}

fn write_token(out: &mut String, token: &Token) -> Result<(), Fail> {
    match &token.kind {
        Kind::Name(name) => write_spelled(out, "Name", name.as_slice())?,
        Kind::Number(value) => write!(out, "Number {value}")?,
        Kind::Letter(byte) => write!(out, "Letter {byte}")?,
        Kind::Text(bytes) => write!(out, "Text {:?}", bytes.as_slice())?,
        Kind::Word(word) => write!(out, "{word:?}")?,
        Kind::Punct(punct) => write!(out, "{punct:?}")?,
        Kind::Refused(word) => write_spelled(out, "Refused", word.as_slice())?,
    }
    let Token { at, start, end, .. } = token;
    write!(out, " {}:{} {start}-{end};", at.line, at.column)?;
    Ok(())
}

fn write_fault(out: &mut String, fault: LexFault) -> Result<(), Fail> {
    let (kind, line, column) = match fault {
        LexFault::BadByte { at } => ("BadByte", at.line, at.column),
        LexFault::OpenComment { at } => ("OpenComment", at.line, at.column),
        LexFault::OpenText { at } => ("OpenText", at.line, at.column),
        LexFault::BadEscape { at } => ("BadEscape", at.line, at.column),
        LexFault::WideNumber { at } => ("WideNumber", at.line, at.column),
        LexFault::BadDirective { at } => ("BadDirective", at.line, at.column),
        LexFault::OutOfMemory => ("OutOfMemory", 0, 0),
    };
    write!(out, "{kind} {line}:{column}")?;
    Ok(())
}

fn shown(alloc: Global, text: &[u8]) -> Result<String, Fail>
    requires { length text.now < 100 }
{
    let mut out = String::new(alloc);
    match tokens(alloc, text) {
        Ok(found) => {
            for token in found.as_slice() {
                write_token(&mut out, token)?;
            }
        }
        Err(fault) => write_fault(&mut out, fault)?,
    }
    Ok(out)
}

fn check_rows(rt: &impl Abort, alloc: Global, mut rows: &[(&[u8], &str)]) -> Result<(), Fail> {
    while let [row, rest @ ..] = rows {
        assert!(rt; row.0.len() < 100);
        let found = shown(alloc, row.0)?;
        assert_eq!(rt; found.as_str(), row.1, "at {:?}", row.0);
        rows = rest;
    }
    Ok(())
}

#[test]
fn gives_the_rows(rt: HostRuntime) -> Result<(), Fail> {
    check_rows(&rt, rt.alloc(), &ROWS)
}
