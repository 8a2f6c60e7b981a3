// Parts of a text that have lines of their own.

ghost use Rattle.std.specs.Prelude.{◌≡◌, ◌++◌, ◌∷◌, [], ℕ, List, IfOk, length, map, min};
ghost use Rattle.std.specs.List.{AllByRecursion};
ghost use Rattle.order_log.specs.Text.{number_text};
ghost use Rattle.snapshot_lines.specs.Lines.{IsAny, ReadsAs, long_most};
ghost use Rattle.snapshot_grammar.specs.Parts.{left, AreMany, Reads};

use crate::fault::DraftFault;
use crate::reader::Reader;
use order_log::{after_word, number};
use rr_base::List;
use std::alloc::{AllocError, Global};

/// What has a line of its own in a text.
pub trait Lined: Drop {
    ghost stands: { Self → Type 0 };

    ghost line: { Self → List ℕ };

    ghost clip: { Self → Self };

    ghost some: { Self };

    /// What the text of a line is, with the greatest number of each type for all from there on.
    fn read(alloc: Global, text: &[u8]) -> Result<Option<Self>, AllocError>
        ensures { IfOk result (ReadsAs stands line clip text.now) };

    ghost some_stands: { stands some };
}

/// The item of the next line.
pub fn read_line<T: Lined>(alloc: Global, reader: &mut Reader) -> Result<T, DraftFault>
    ensures { Reads T.stands (λ x. T.line x ∷ []) T.clip (left reader.old) result (left reader.new) }
{
    let at = reader.line;
    let Some(text) = reader.next_line() else {
        return Err(DraftFault::Syntax(at));
    };
    match T::read(alloc, text)? {
        Some(item) => Ok(item),
        None => Err(DraftFault::Syntax(at)),
    }
}

/// The items of so many lines.
pub fn read_lines<T: Lined>(
    alloc: Global,
    reader: &mut Reader,
    count: u64,
) -> Result<List<T>, DraftFault>
    ensures { (n : ℕ) → count ≡ min n long_most → Reads (AreMany _ T.stands n) (map T.line) (map T.clip) (left reader.old) result (left reader.new) }
{
    let _line = reader.line;
    let _left = reader.bytes.len();
    let mut found = List::new(alloc);
    let mut left = count;
    while left > 0 {
        let item = read_line(alloc, reader)?;
        found.push(item)?;
        left -= 1;
    }
    Ok(found)
}

// The number that stands after a word.
fn number_after(word: &[u8], text: &[u8]) -> Option<u64>
    ensures { ReadsAs {A = ℕ} IsAny (λ n. word.now ++ number_text n) (λ n. min n long_most) text.now result }
{
    number(after_word(word, text)?)
}

/// The number after a word, alone in the next line.
pub fn read_number(reader: &mut Reader, word: &[u8]) -> Result<u64, DraftFault>
    ensures { Reads {A = ℕ} IsAny (λ n. (word.now ++ number_text n) ∷ []) (λ n. min n long_most) (left reader.old) result (left reader.new) }
{
    let at = reader.line;
    let Some(text) = reader.next_line() else {
        return Err(DraftFault::Syntax(at));
    };
    match number_after(word, text) {
        Some(n) => Ok(n),
        None => Err(DraftFault::Syntax(at)),
    }
}

/// The number of items after a word, and below it the items, one a line.
pub fn read_counted<T: Lined>(
    alloc: Global,
    reader: &mut Reader,
    word: &[u8],
) -> Result<List<T>, DraftFault>
    ensures { Reads (AllByRecursion T.stands) (λ xs. (word.now ++ number_text (length xs)) ∷ map T.line xs) (map T.clip) (left reader.old) result (left reader.new) }
{
    let _line = reader.line;
    let count = read_number(reader, word)?;
    read_lines(alloc, reader, count)
}
