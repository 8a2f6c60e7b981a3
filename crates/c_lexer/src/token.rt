use rr_base::{Bytes, Position};

/// A word of the language (C99 6.4.1), among them the types and initialisers of `<pthread.h>` and `NULL`.
#[derive(Clone, Copy, Debug, PartialEq, Eq)]
pub enum Word {
    Int,
    Long,
    Void,
    Struct,
    If,
    Else,
    While,
    Do,
    For,
    Break,
    Continue,
    Return,
    Sizeof,
    Static,
    Null,
    PthreadT,
    PthreadMutexT,
    PthreadCondT,
    PthreadBarrierT,
    PthreadRwlockT,
    PthreadMutexInitializer,
    PthreadCondInitializer,
    PthreadRwlockInitializer,
}

/// A punctuator (C99 6.4.6).
#[derive(Clone, Copy, Debug, PartialEq, Eq)]
pub enum Punct {
    /// `<<=`
    ShiftLeftAssign,
    /// `>>=`
    ShiftRightAssign,
    /// `->`
    Arrow,
    /// `++`
    PlusPlus,
    /// `--`
    MinusMinus,
    /// `<<`
    ShiftLeft,
    /// `>>`
    ShiftRight,
    /// `<=`
    LessEqual,
    /// `>=`
    GreaterEqual,
    /// `==`
    EqualEqual,
    /// `!=`
    NotEqual,
    /// `&&`
    AndAnd,
    /// `||`
    OrOr,
    /// `+=`
    PlusAssign,
    /// `-=`
    MinusAssign,
    /// `*=`
    StarAssign,
    /// `/=`
    SlashAssign,
    /// `%=`
    PercentAssign,
    /// `&=`
    AndAssign,
    /// `|=`
    OrAssign,
    /// `^=`
    CaretAssign,
    /// `(`
    OpenParen,
    /// `)`
    CloseParen,
    /// `[`
    OpenBracket,
    /// `]`
    CloseBracket,
    /// `{`
    OpenBrace,
    /// `}`
    CloseBrace,
    /// `;`
    Semicolon,
    /// `,`
    Comma,
    /// `.`
    Dot,
    /// `&`
    And,
    /// `*`
    Star,
    /// `+`
    Plus,
    /// `-`
    Minus,
    /// `~`
    Tilde,
    /// `!`
    Not,
    /// `/`
    Slash,
    /// `%`
    Percent,
    /// `<`
    Less,
    /// `>`
    Greater,
    /// `^`
    Caret,
    /// `|`
    Or,
    /// `?`
    Question,
    /// `:`
    Colon,
    /// `=`
    Assign,
}

/// What a token is.
#[derive(Debug, Drop)]
pub enum Kind {
    /// A name, by its bytes.
    Name(Bytes),
    /// A number: 0 to 2^63 - 1 as written, or what a `#define` gave, which may be negative.
    Number(i64),
    /// A letter, by its byte.
    Letter(u8),
    /// A text, by the bytes that it means.
    Text(Bytes),
    Word(Word),
    Punct(Punct),
    /// A word of C that this profile refuses, by its bytes.
    Refused(Bytes),
}

/// A token with the place of its first byte, and its span: how many bytes stand before its first byte, and how many
/// up to its end.
#[derive(Debug, Drop)]
pub struct Token {
    pub kind: Kind,
    pub at: Position,
    pub start: u32,
    pub end: u32,
}
