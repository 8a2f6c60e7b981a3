// A text read line by line.

ghost use Rattle.std.specs.Prelude.{◌≡◌};
ghost use Rattle.snapshot_grammar.specs.Parts.{left, TakesLine, TakesText};

use order_log::cut;

/// The bytes that are left of a text, and the number of their first line.
#[derive(Drop)]
pub struct Reader<'a> {
    pub bytes: &'a [u8],
    pub line: u32,
}

impl<'a> Reader<'a> {
    /// The next line without its newline, if a whole one is left.
    pub fn next_line(&mut self) -> Option<&'a [u8]>
        ensures { TakesLine (left self.old) result (left self.new) }
    {
        let (line, rest) = cut(self.bytes, b'\n')?;
        self.bytes = rest;
        self.line = self.line.saturating_add(1);
        Some(line)
    }

    /// Whether the next line is this one.
    pub fn takes_text(&mut self, text: &[u8]) -> bool
        ensures { TakesText text.now (left self.old) result (left self.new) }
    {
        match self.next_line() {
            Some(line) => line == text,
            None => false,
        }
    }
}
