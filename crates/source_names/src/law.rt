// The names of functions.

ghost use Rattle.source_names.specs.Spelled.{NamesAreTexts};

/// In the code of a source, with its weak locks, each function's name is a text in UTF-8.
pub fn law_names_are_texts()
    ensures { NamesAreTexts }
{}
