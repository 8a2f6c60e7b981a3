//! Laws of the tokens of a text. The functions do nothing: what each ensures is the law.

ghost use Rattle.c_lexer.specs.Laws.{LongestIsCut, PlacesAreTrue, SpelledAreFound};

/// The longest punctuation that a text begins with is its token (C99 6.4, the longest sequence of characters).
pub fn law_longest_is_cut()
    ensures { LongestIsCut }
{}

/// Words and punctuation, with spaces between them, have exactly the tokens that they are.
pub fn law_spelled_are_found()
    ensures { SpelledAreFound }
{}

/// The line and column of a token are those of the byte at which its span begins, and the line and column of a
/// fault are those of some byte of the text or of its end.
pub fn law_places_are_true()
    ensures { PlacesAreTrue }
{}
