// The fields of a line, taken one after another.
ghost use Rattle.std.specs.Prelude.{◌≡◌, ◌↔◌, [], IsTrue};
ghost use Rattle.snapshot_lines.specs.Fields.{fields_of, fields_left, Takes, TakesWord, TakesNumber, TakesThree, TakesValue};
ghost use Rattle.snapshot_lines.specs.Lines.{word_most, half_most, byte_most, long_most};

use crate::value::value_in;
use order_log::{cut, number};

/// What is left of a line, if anything is.
#[derive(Drop)]
pub struct Fields<'a> {
    rest: Option<&'a [u8]>,
}

impl<'a> Fields<'a> {
    /// The fields of a whole line.
    pub fn of(line: &'a [u8]) -> Fields<'a>
        ensures { fields_left result.rest ≡ fields_of line.now }
    {
        Fields { rest: Some(line) }
    }

    /// The next field.
    pub fn take(&mut self) -> Option<&'a [u8]>
        ensures { Takes (fields_left self.old.rest) result (fields_left self.new.rest) }
    {
        let text = self.rest?;
        match cut(text, b' ') {
            Some((field, rest)) => {
                self.rest = Some(rest);
                Some(field)
            }
            None => {
                self.rest = None;
                Some(text)
            }
        }
    }

    /// Whether no field is left.
    pub fn is_over(&self) -> bool
        ensures { IsTrue result ↔ (fields_left self.now.rest ≡ []) }
    {
        self.rest.is_none()
    }

    /// Whether the next field is this word.
    pub fn take_word(&mut self, word: &[u8]) -> bool
        ensures { TakesWord word.now (fields_left self.old.rest) result (fields_left self.new.rest) }
    {
        match self.take() {
            Some(field) => field == word,
            None => false,
        }
    }

    /// The next field as a number.
    pub fn take_long(&mut self) -> Option<u64>
        ensures { TakesNumber long_most (fields_left self.old.rest) result (fields_left self.new.rest) }
    {
        number(self.take()?)
    }

    /// The next field as a number of 32 bits.
    pub fn take_u32(&mut self) -> Option<u32>
        ensures { TakesNumber word_most (fields_left self.old.rest) result (fields_left self.new.rest) }
    {
        Some(self.take_long()?.min(4_294_967_295) as u32)
    }

    /// The next field as a number of 16 bits.
    pub fn take_u16(&mut self) -> Option<u16>
        ensures { TakesNumber half_most (fields_left self.old.rest) result (fields_left self.new.rest) }
    {
        Some(self.take_long()?.min(65_535) as u16)
    }

    /// The next field as a number of 8 bits.
    pub fn take_u8(&mut self) -> Option<u8>
        ensures { TakesNumber byte_most (fields_left self.old.rest) result (fields_left self.new.rest) }
    {
        Some(self.take_long()?.min(255) as u8)
    }

    /// The next three fields as numbers of 32 bits.
    pub fn take_three(&mut self) -> Option<(u32, u32, u32)>
        ensures { TakesThree word_most (fields_left self.old.rest) result (fields_left self.new.rest) }
    {
        let first = self.take_u32()?;
        let second = self.take_u32()?;
        let third = self.take_u32()?;
        Some((first, second, third))
    }

    /// The next three fields as numbers.
    pub fn take_three_long(&mut self) -> Option<(u64, u64, u64)>
        ensures { TakesThree long_most (fields_left self.old.rest) result (fields_left self.new.rest) }
    {
        let first = self.take_long()?;
        let second = self.take_long()?;
        let third = self.take_long()?;
        Some((first, second, third))
    }

    /// The next field as a signed word.
    pub fn take_value(&mut self) -> Option<u64>
        ensures { TakesValue (fields_left self.old.rest) result (fields_left self.new.rest) }
    {
        value_in(self.take()?)
    }
}
