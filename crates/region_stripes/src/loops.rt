//! The laws of counted loops over all their turns.
ghost use Rattle.std.specs.Prelude.{◌≡◌, ◌≤◌, ℕ, true, List, length, Some, slice_get};
ghost use Rattle.std.specs.List.{Contains};
ghost use Rattle.rr_base.specs.Words.{offset_of};
ghost use Rattle.flow_code.specs.declared.act.Act.{Act};
ghost use Rattle.flow_code.specs.declared.code.Code.{Code};
ghost use Rattle.flow_code.specs.declared.code.Function.{Function};
ghost use Rattle.flow_code.specs.declared.code.LoopInfo.{LoopInfo};
ghost use Rattle.flow_code.specs.declared.region.Bound.{Bound};
ghost use Rattle.flow_code.specs.declared.region.Region.TheVariants as region;
ghost use Rattle.flow_code.specs.declared.region.Span.{Span};
ghost use Rattle.flow_code.specs.Constants.{constants_fit};
ghost use Rattle.flow_code.specs.Stripes.{guards, points_to_cell, wants};
ghost use Rattle.flow_code.specs.Valid.{is_valid};
ghost use Rattle.word_semantics.specs.Pointers.{known};
ghost use Rattle.word_semantics.specs.Registers.{register};
ghost use Rattle.facts.specs.declared.pair.Pair.{Pair};
ghost use Rattle.profiles.specs.declared.profile.Profile.{Profile};
ghost use Rattle.facts.specs.PointsTo.{Tables};
ghost use Rattle.weak_lock_facts.specs.declared.grain.Grained.{Grained};
ghost use Rattle.weak_lock_facts.specs.declared.range.Range.{Range};
ghost use Rattle.weak_lock_facts.specs.Grains.{AreGrains};
ghost use Rattle.weak_lock_facts.specs.Loops.{nth, is_counted, keeps, counted_of};
ghost use Rattle.weak_lock_facts.specs.Ranges.{loop_round, pointer_of, range_at, ranges_of};
ghost use Rattle.weak_code.specs.declared.stretch.RacyAccess.{RacyAccess};
ghost use Rattle.weak_code.specs.Stretches.{racy_accesses, element_base};
ghost use Rattle.weak_code.specs.Stripped.{is_plain};
ghost use Rattle.weak_code.specs.WeakLocks.{places_in};
ghost use Rattle.weak_code.specs.Weakened.{weakened};
ghost use Rattle.weak_valid.specs.Apart.{loops_are_apart};
ghost use Rattle.guard_paths.specs.Guards.{Guards, IsSeat};
ghost use Rattle.guard_paths.specs.LoopsClosed.{loops_are_closed};
ghost use Rattle.guard_paths.specs.Walked.{Opening, Walked};
ghost use Rattle.loop_bounds.specs.Turns.{Setting, AreFit};
ghost use Rattle.region_stripes.specs.Inside.{Inside};
ghost use Rattle.region_stripes.specs.InRange.{IsInRange};
ghost use Rattle.region_stripes.specs.Settings.{IsSettingOf};

/// In every turn of a counted loop a register that the loop keeps has what it had where the loop was entered.
pub fn law_kept_in_runs()
    ensures { (s : Setting) (fn : Function) (l : LoopInfo) (start : List ℕ) (r k : ℕ) (rs : List ℕ) → is_counted fn l ≡ true → keeps fn.instrs l r ≡ true → Inside s fn.instrs l start k rs → register rs r ≡ register start r }
{}

/// In every turn the pointer of an access that has a range is, at the access, that of its span's base moved by a count and the
/// range's shift. The count is from the counter to before the bound; these, and the base, are what they were where the loop
/// was entered.
pub fn law_range_in_runs()
    ensures { (s : Setting) (code : Code) (t : Tables) (f : ℕ) (fn : Function) (k p : ℕ) (x : Act) (r : Range) (l : LoopInfo) (start rs : List ℕ) → nth fn.instrs k ≡ Some x → pointer_of x ≡ Some p → range_at code t f fn.instrs (counted_of fn) k x ≡ Some r → loop_round fn.instrs k (counted_of fn) ≡ Some l → s.pointers ≡ fn.pointers → AreFit fn.instrs (length start) → Inside s fn.instrs l start k rs → IsInRange s fn.instrs start l (element_base fn.instrs k p) r.shift (register rs p) }
{}

/// In whichever turn an access stands that is guarded with its counted loop, the loop's open region takes the stripe of the cell
/// to which the access points, by what the frame's registers were where the region was taken.
pub fn law_loop_wants()
    ensures { (code : Code) (t : Tables) (vs : List Pair) (rs : List Range) (profile : Profile) (rows : List Grained) → is_valid code ≡ true → is_plain code ≡ true → loops_are_apart code ≡ true → loops_are_closed code ≡ true → rs ≡ ranges_of code t → AreGrains code vs rs profile rows → constants_fit code ≡ true → (f : ℕ) (fn weak : Function) (a : RacyAccess) (w : ℕ) (s : Setting) (registers : List ℕ) (opened : List Opening) → slice_get code.functions f ≡ Some fn → slice_get (weakened code t vs rs rows).functions f ≡ Some weak → Contains (racy_accesses code t (places_in vs) rs rows f) a → IsSeat weak.instrs w a.instr → IsSettingOf code fn s → fn.registers ≤ length registers → Walked s weak.instrs w registers opened → (lock stripe v : ℕ) → Contains a.locks lock → v ≡ known code.sites (register registers a.through) → points_to_cell v ≡ true → guards (weakened code t vs rs rows) v (offset_of v) lock stripe ≡ true → (x : Opening) (counter : ℕ) (until : Bound) (spans : List Span) → Contains opened x → slice_get weak.regions x.0 ≡ Some (region.Ranged counter until spans) → Guards fn a (region.Ranged counter until spans) → wants (weakened code t vs rs rows) x.1 (region.Ranged counter until spans) lock stripe ≡ true }
{}
