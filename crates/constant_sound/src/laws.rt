//! The laws of constants.
ghost use Rattle.std.specs.Prelude.{◌≡◌, ◌↔◌, ℕ, ℤ, true, false, [], Ok};
ghost use Rattle.sync_objects.specs.Setup.{SetupView};
ghost use Rattle.word_semantics.specs.Values.{word, binary_of};
ghost use Rattle.c_tree.specs.Tree.{Exp};
ghost use Rattle.c_tree.specs.declared.expr.BinaryOp.{BinaryOp};
ghost use Rattle.c_tree.specs.declared.expr.PrefixOp.TheVariants as prefix_op;
ghost use Rattle.c_types.specs.Numbers.{Computed, fits, computed, prefixed};
ghost use Rattle.c_types.specs.Constants.{is_constant};
ghost use Rattle.c_types.specs.Scopes.{Known};
ghost use Rattle.c_constants.specs.Values.{value_here};
ghost use Rattle.c_rules.specs.Sizes.{is_sound, constant_faults};
ghost use Rattle.core_tree.specs.Core as core;
ghost use Rattle.core_tree.specs.Core.{Program};
ghost use Rattle.core_tree.specs.Meaning.{Calls, unary_of, value};
ghost use Rattle.core_tree.specs.Runs.{pure};
ghost use Rattle.core_tree.specs.declared.value.UnaryOp.TheVariants as unary_op;
ghost use Rattle.c_operators.specs.Context.{Context};
ghost use Rattle.c_operators.specs.Operators.{flow_operator};
ghost use Rattle.c_values.specs.Expressions.{value_of};
ghost use Rattle.constant_sound.specs.Running.{worded, fit, is_logical, Computes};
ghost use Rattle.constant_sound.specs.Written.{HidesNoConstant, literals_fit, written_of};

/// An operator gives of the words of two numbers the word of what folding gives of the numbers, or traps with the same
/// cause. What folding gives fits 64 bits again. `&&` and `||` are no operators on words.
pub fn law_operator()
    ensures same { (o : BinaryOp) (a b : ℤ) → is_logical o ≡ false → fits a ≡ true → fits b ≡ true → binary_of (flow_operator o) (word a) (word b) ≡ worded (computed o a b) }
    ensures fits { (o : BinaryOp) (a b n : ℤ) → fits a ≡ true → fits b ≡ true → computed o a b ≡ Ok n → fits n ≡ true }
{}

/// So does an operator on one number.
pub fn law_prefix()
    ensures minus { (a : ℤ) → fits a ≡ true → unary_of unary_op.Minus (word a) ≡ worded (prefixed prefix_op.Minus a) }
    ensures complement { (a : ℤ) → fits a ≡ true → unary_of unary_op.Complement (word a) ≡ worded (prefixed prefix_op.Complement a) }
    ensures not { (a : ℤ) → fits a ≡ true → unary_of unary_op.Not (word a) ≡ worded (prefixed prefix_op.Not a) }
{}

/// A tree computes one value: so folding gives a number just where running gives a word, and that word is the number's, and
/// it gives a trap just where running traps, for that cause.
pub fn law_one_value()
    ensures { (p : Program) (setup : SetupView) (t : ℕ) (calls : Calls) (e : core.Exp) (c d : Computed) →
        fit c ≡ true →
        fit d ≡ true →
        Computes p setup t calls e c →
        Computes p setup t calls e d →
        c ≡ d }
{}

/// The core tree of a constant expression gives when it runs the word of the expression's value, and traps just where
/// folding finds that it traps, with the same cause: the tree as it is written, in which nothing is folded, and the tree
/// that a source gets. Nothing else is done: no event, and the thread's own state stays. The value fits 64 bits.
pub fn law_constant()
    ensures written { (p : Program) (setup : SetupView) (t : ℕ) (calls : Calls) (h : Context) (e : Exp) →
        HidesNoConstant h.known →
        is_constant e ≡ true →
        literals_fit e ≡ true →
        Computes p setup t calls (written_of h e) (value_here h.known e) }
    ensures folded { (p : Program) (setup : SetupView) (t : ℕ) (calls : Calls) (h : Context) (e : Exp) →
        HidesNoConstant h.known →
        is_constant e ≡ true →
        literals_fit e ≡ true →
        Computes p setup t calls (value_of h e) (value_here h.known e) }
    ensures fits { (known : Known) (e : Exp) → is_constant e ≡ true → literals_fit e ≡ true → fit (value_here known e) ≡ true }
{}

/// Where a source must have a constant, as for the length of an array, one that breaks no other rule is refused just where its
/// core tree as it is written would trap.
pub fn law_refused()
    ensures { (p : Program) (setup : SetupView) (t : ℕ) (calls : Calls) (h : Context) (e : Exp) →
        HidesNoConstant h.known →
        is_constant e ≡ true →
        literals_fit e ≡ true →
        is_sound h.known e ≡ true →
        (constant_faults h.known e ≡ []) ↔ ((w : ℕ) × (value p setup t calls (written_of h e) ≡ pure w)) }
{}
