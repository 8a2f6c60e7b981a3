ghost use Rattle.std.specs.Prelude.{◌≡◌, ℕ, List};
ghost use Rattle.c_tree.specs.Tree.{Outer};
ghost use Rattle.c_print.specs.Kinds.{kinds_of};
ghost use Rattle.c_grammar.specs.Marks.{Lexeme, Mark, erase, kinds_at};
ghost use Rattle.c_grammar.specs.Exact.{IsProgram, IsExact, parsed};

/// The tokens have at most one tree of the grammar, whatever its levels.
pub fn law_one_tree()
    ensures { (os os' : List Outer) (ms ms' : List Mark) → IsProgram os ms → IsProgram os' ms' → erase ms ≡ erase ms' → os ≡ os' }
{}

/// The parser's rules give the one tree exactly where its levels are within the limit, and else the first token that
/// fits none.
pub fn law_exact()
    ensures { (limit : ℕ) (ts : List Lexeme) → IsExact limit ts (parsed limit ts) }
{}

/// A tree of the grammar prints back to the kinds of its tokens.
pub fn law_prints()
    ensures { (os : List Outer) (ms : List Mark) → IsProgram os ms → kinds_at ms ≡ kinds_of os }
{}
