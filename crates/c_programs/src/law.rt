//! Laws of the definitions.
ghost use Rattle.std.specs.Prelude.{◌≡◌, ◌||◌, is_some};
ghost use Rattle.rr_base.specs.Texts.{Text};
ghost use Rattle.c_lexer.specs.Tables.{is_library_name};
ghost use Rattle.c_types.specs.Constants.{constant_named};
ghost use Rattle.c_types.specs.Library.{library_named};

/// The names of the library, of which no directive may make a number, are those of its calls and its constants.
pub fn law_library_names()
    ensures { (name : Text) → is_library_name name ≡ (is_some (library_named name) || is_some (constant_named name)) }
{}
