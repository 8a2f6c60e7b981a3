//! The spellings that mean something of their own, each list in one place.

ghost use Rattle.std.specs.Prelude.{◌≡◌, ◌<◌, ◌≤◌, length, map, IsTrue};
ghost use Rattle.rr_base.specs.Texts.{entry_of};
ghost use Rattle.c_lexer.specs.Pieces.{IsPlainWithin};
ghost use Rattle.c_lexer.specs.Pieces as spec;
ghost use Rattle.c_lexer.specs.Directives as directive;
ghost use Rattle.c_lexer.specs.Names as names;
ghost use Rattle.c_lexer.specs.Tables as tables;
ghost use Rattle.c_lexer.specs.Tokens as tokens;

use crate::fault::Fault;
use crate::piece::Piece;
use crate::token::{Kind, Punct, Word};

static PUNCTS: [(&[u8], Punct); 45] = [
    (b"<<=", Punct::ShiftLeftAssign),
    (b">>=", Punct::ShiftRightAssign),
    (b"->", Punct::Arrow),
    (b"++", Punct::PlusPlus),
    (b"--", Punct::MinusMinus),
    (b"<<", Punct::ShiftLeft),
    (b">>", Punct::ShiftRight),
    (b"<=", Punct::LessEqual),
    (b">=", Punct::GreaterEqual),
    (b"==", Punct::EqualEqual),
    (b"!=", Punct::NotEqual),
    (b"&&", Punct::AndAnd),
    (b"||", Punct::OrOr),
    (b"+=", Punct::PlusAssign),
    (b"-=", Punct::MinusAssign),
    (b"*=", Punct::StarAssign),
    (b"/=", Punct::SlashAssign),
    (b"%=", Punct::PercentAssign),
    (b"&=", Punct::AndAssign),
    (b"|=", Punct::OrAssign),
    (b"^=", Punct::CaretAssign),
    (b"(", Punct::OpenParen),
    (b")", Punct::CloseParen),
    (b"[", Punct::OpenBracket),
    (b"]", Punct::CloseBracket),
    (b"{", Punct::OpenBrace),
    (b"}", Punct::CloseBrace),
    (b";", Punct::Semicolon),
    (b",", Punct::Comma),
    (b".", Punct::Dot),
    (b"&", Punct::And),
    (b"*", Punct::Star),
    (b"+", Punct::Plus),
    (b"-", Punct::Minus),
    (b"~", Punct::Tilde),
    (b"!", Punct::Not),
    (b"/", Punct::Slash),
    (b"%", Punct::Percent),
    (b"<", Punct::Less),
    (b">", Punct::Greater),
    (b"^", Punct::Caret),
    (b"|", Punct::Or),
    (b"?", Punct::Question),
    (b":", Punct::Colon),
    (b"=", Punct::Assign),
];

static WORDS: [(&[u8], Word); 23] = [
    (b"int", Word::Int),
    (b"long", Word::Long),
    (b"void", Word::Void),
    (b"struct", Word::Struct),
    (b"if", Word::If),
    (b"else", Word::Else),
    (b"while", Word::While),
    (b"do", Word::Do),
    (b"for", Word::For),
    (b"break", Word::Break),
    (b"continue", Word::Continue),
    (b"return", Word::Return),
    (b"sizeof", Word::Sizeof),
    (b"static", Word::Static),
    (b"NULL", Word::Null),
    (b"pthread_t", Word::PthreadT),
    (b"pthread_mutex_t", Word::PthreadMutexT),
    (b"pthread_cond_t", Word::PthreadCondT),
    (b"pthread_barrier_t", Word::PthreadBarrierT),
    (b"pthread_rwlock_t", Word::PthreadRwlockT),
    (b"PTHREAD_MUTEX_INITIALIZER", Word::PthreadMutexInitializer),
    (b"PTHREAD_COND_INITIALIZER", Word::PthreadCondInitializer),
    (
        b"PTHREAD_RWLOCK_INITIALIZER",
        Word::PthreadRwlockInitializer,
    ),
];

// Words that stand for a blank.
static BLANK_WORDS: [&[u8]; 2] = [b"const", b"volatile"];

// Words of C that the profile refuses.
static REFUSED_WORDS: [&[u8]; 18] = [
    b"char",
    b"short",
    b"unsigned",
    b"signed",
    b"float",
    b"double",
    b"union",
    b"enum",
    b"typedef",
    b"switch",
    b"case",
    b"default",
    b"goto",
    b"auto",
    b"register",
    b"extern",
    b"inline",
    b"restrict",
];

// Calls and constants of the library.
static LIBRARY_NAMES: [&[u8]; 35] = [
    b"pthread_create",
    b"pthread_join",
    b"pthread_exit",
    b"pthread_self",
    b"pthread_equal",
    b"pthread_mutex_init",
    b"pthread_mutex_lock",
    b"pthread_mutex_unlock",
    b"pthread_mutex_trylock",
    b"pthread_mutex_destroy",
    b"pthread_cond_init",
    b"pthread_cond_wait",
    b"pthread_cond_signal",
    b"pthread_cond_broadcast",
    b"pthread_cond_destroy",
    b"pthread_barrier_init",
    b"pthread_barrier_wait",
    b"pthread_barrier_destroy",
    b"pthread_rwlock_init",
    b"pthread_rwlock_rdlock",
    b"pthread_rwlock_wrlock",
    b"pthread_rwlock_unlock",
    b"pthread_rwlock_destroy",
    b"malloc",
    b"free",
    b"getchar",
    b"printf",
    b"putchar",
    b"puts",
    b"EOF",
    b"EBUSY",
    b"EAGAIN",
    b"PTHREAD_BARRIER_SERIAL_THREAD",
    b"EXIT_SUCCESS",
    b"EXIT_FAILURE",
];

static HEADERS: [&[u8]; 4] = [b"<pthread.h>", b"<stdio.h>", b"<stdlib.h>", b"<errno.h>"];

fn is_among(mut spellings: &[&[u8]], text: &[u8]) -> bool
    ensures { result ≡ tables.is_among (map (λ s. s.now) spellings.entry.now) text.now }
{
    while let [first, rest @ ..] = spellings {
        if *first == text {
            return true;
        }
        spellings = rest;
    }
    false
}

fn word_in(mut table: &[(&[u8], Word)], name: &[u8]) -> Option<Word>
    ensures { result ≡ entry_of (map (λ e. (e.0.now, e.1)) table.entry.now) name.now }
{
    while let [entry, rest @ ..] = table {
        if name == entry.0 {
            return Some(entry.1);
        }
        table = rest;
    }
    None
}

fn punct_in(mut table: &[(&[u8], Punct)], text: &[u8]) -> Piece
    requires { IsTrue (spec.have_bytes (map (λ e. (e.0.now, e.1)) table.now)) }
    ensures value { result ≡ tokens.punct_in (map (λ e. (e.0.now, e.1)) table.entry.now) text.now }
    ensures within { IsPlainWithin result (length text.now) }
{
    while let [entry, rest @ ..] = table {
        if text.starts_with(entry.0) {
            return Piece::Token(Kind::Punct(entry.1), entry.0.len());
        }
        table = rest;
    }
    Piece::Fault(Fault::BadByte, 0)
}

fn header_in(mut headers: &[&[u8]], text: &[u8]) -> Option<usize>
    ensures value { result ≡ directive.header_len (map (λ h. h.now) headers.entry.now) text.now }
    ensures within { spec.IsUpTo result (length text.now) }
{
    while let [header, rest @ ..] = headers {
        if text.starts_with(*header) {
            return Some(header.len());
        }
        headers = rest;
    }
    None
}

/// The longest punctuation that the text begins with.
#[tactic(auto, unfolding(crate::specs::Tokens::punct_at))]
pub fn punct_at(text: &[u8]) -> Piece
    ensures value { result ≡ tokens.punct_at text.now }
    ensures within { IsPlainWithin result (length text.now) }
{
    punct_in(&PUNCTS, text)
}

/// The word of the language that is spelled so.
#[tactic(auto, unfolding(crate::specs::Names::word_of))]
pub fn word_of(name: &[u8]) -> Option<Word>
    ensures { result ≡ names.word_of name.now }
{
    word_in(&WORDS, name)
}

/// Whether the word stands for a blank.
#[tactic(auto, unfolding(crate::specs::Names::is_blank_word))]
pub fn is_blank_word(name: &[u8]) -> bool
    ensures { result ≡ names.is_blank_word name.now }
{
    is_among(&BLANK_WORDS, name)
}

/// Whether the word is one of C that the profile refuses.
#[tactic(auto, unfolding(crate::specs::Names::is_refused))]
pub fn is_refused(name: &[u8]) -> bool
    ensures { result ≡ names.is_refused name.now }
{
    is_among(&REFUSED_WORDS, name)
}

/// Whether the name is that of a call or constant of the library, which a program may use but not declare.
#[tactic(auto, unfolding(crate::specs::Tables::is_library_name))]
pub fn is_library_name(name: &[u8]) -> bool
    ensures { result ≡ tables.is_library_name name.now }
{
    is_among(&LIBRARY_NAMES, name)
}

/// How long the name of a header is that the text begins with.
pub fn header_len(text: &[u8]) -> Option<usize>
    ensures value { result ≡ directive.header_len tables.headers text.now }
    ensures within { spec.IsUpTo result (length text.now) }
{
    header_in(&HEADERS, text)
}
