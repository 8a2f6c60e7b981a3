ghost use Rattle.std.specs.Prelude.{◌≡◌, ◌≢◌, ℕ, List, Result, Err};
ghost use Rattle.profiles.specs.Profile.{Pair, ArePairs};
ghost use Rattle.profiles.specs.declared.profile.Profile.{Profile};
ghost use Rattle.profile_book.specs.Reading.{Answers, IsProfile};
ghost use Rattle.profile_book.specs.Writing.{profile_text};
ghost use Rattle.profile_book.specs.declared.fault.ProfileFault.{ProfileFault};
ghost use Rattle.profile_book.specs.declared.fault.ProfileFault.TheVariants.{OutOfMemory};

/// Bytes have one answer: one profile, or one fault. Only want of memory can stand in its place.
pub fn law_one_answer()
    ensures { (bytes : List ℕ) → (a b : Result Profile ProfileFault)
        → Answers bytes a → Answers bytes b → a ≢ Err OutOfMemory → b ≢ Err OutOfMemory → a ≡ b }
{}

/// The text of a profile's pairs is read as these pairs, and as no others.
pub fn law_reads_back()
    ensures reads { (ps : List Pair) → ArePairs ps → IsProfile (profile_text ps) ps }
    ensures only { (ps qs : List Pair) → ArePairs ps → IsProfile (profile_text ps) qs → qs ≡ ps }
{}
