//! What the tests of counted loops say of their instructions, and of each turn.
ghost use Rattle.std.specs.Prelude.{◌≡◌, ◌+◌, ◌-◌, ◌+ℤ◌, ◌<◌, ◌≤◌, ℕ, List, length, true, Some};
ghost use Rattle.flow_code.specs.declared.act.Act.{Act};
ghost use Rattle.flow_code.specs.declared.code.Code.{Code};
ghost use Rattle.flow_code.specs.declared.code.Function.{Function};
ghost use Rattle.flow_code.specs.declared.code.LoopInfo.{LoopInfo};
ghost use Rattle.word_semantics.specs.Values.{number};
ghost use Rattle.word_semantics.specs.Registers.{register};
ghost use Rattle.facts.specs.PointsTo.{Tables};
ghost use Rattle.weak_lock_facts.specs.declared.range.Range.{Range};
ghost use Rattle.weak_lock_facts.specs.Loops.{nth, is_counted, keeps, counted_of};
ghost use Rattle.weak_lock_facts.specs.Ranges.{pointer_of, range_at};
ghost use Rattle.loop_bounds.specs.Forms.{IsBorneOut};
ghost use Rattle.loop_bounds.specs.Turns.{Setting, Comes, AreFit, IsElement};

/// A counted loop is a Mark, a condition, a body, a last part that alone assigns the counter, and a jump back, and is entered
/// at the Mark.
pub fn law_form()
    ensures { (fn : Function) (l : LoopInfo) → is_counted fn l ≡ true → IsBorneOut fn.instrs l }
{}

/// In each turn of a counted loop the counter has, until the last part raises it, what it had at the Mark.
pub fn law_counter()
    ensures { (s : Setting) (fn : Function) (l : LoopInfo) (start : List ℕ) (k : ℕ) (rs : List ℕ) → is_counted fn l ≡ true → Comes s fn.instrs l.at start k rs → l.at < k → k ≤ l.last - 1 → register rs l.counter ≡ register start l.counter }
{}

/// So has each register that the loop keeps.
pub fn law_kept()
    ensures { (s : Setting) (fn : Function) (l : LoopInfo) (start : List ℕ) (r k : ℕ) (rs : List ℕ) → is_counted fn l ≡ true → keeps fn.instrs l r ≡ true → Comes s fn.instrs l.at start k rs → l.at < k → k ≤ l.last - 1 → register rs r ≡ register start r }
{}

/// In each turn the pointer of an access that has a range is, at the access, its base's pointer moved by the counter and the
/// range's shift, where base and counter are what they were at the Mark.
pub fn law_element()
    ensures { (s : Setting) (code : Code) (t : Tables) (f : ℕ) (fn : Function) (k p : ℕ) (x : Act) (r : Range) (start rs : List ℕ) → nth fn.instrs k ≡ Some x → pointer_of x ≡ Some p → range_at code t f fn.instrs (counted_of fn) k x ≡ Some r → AreFit fn.instrs (length start) → Comes s fn.instrs r.loop_at start k rs → IsElement s fn start r (register rs p) }
{}

/// Where it jumps back to the Mark, the counter is what it was there and the step.
pub fn law_step()
    ensures { (s : Setting) (fn : Function) (l : LoopInfo) (start rs : List ℕ) → is_counted fn l ≡ true → AreFit fn.instrs (length start) → Comes s fn.instrs l.at start (l.last + 1) rs → number (register rs l.counter) ≡ number (register start l.counter) +ℤ l.step }
{}
