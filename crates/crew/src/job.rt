ghost use Rattle.std.specs.Prelude.{◌≡◌, ℕ, Bool, IsTrue};
ghost use Rattle.crew.specs.Counts.{RoseBy};

/// What is done in turns.
pub trait Job: Drop {
    /// Whether the job has ended.
    ghost ended: { Self → Bool };

    /// The number of turns that the job was given.
    ghost turns: { Self → ℕ };

    /// From the first of two states of a job turns may have led to the second.
    ghost leads_to: { Self → Self → Type 0 };

    /// Gives the job a turn, and answers whether it has ended.
    fn turn(&mut self) -> bool
        ensures ended { result ≡ ended self.new }
        ensures stays { IsTrue (ended self.old) → IsTrue (ended self.new) }
        ensures turns { RoseBy 1 (turns self.old) (turns self.new) }
        ensures leads { leads_to self.old self.new };

    /// The number of turns that the job was given, up to the greatest u64.
    fn turns(&self) -> u64
        ensures { result ≡ turns self.now };

    /// For how many turns on end the job came no further, since it waits for another one. Any number will do: a crew's threads only
    /// rest the longer for it.
    fn turns_in_vain(&self) -> u32;

    ghost reflexive: { (job : Self) → leads_to job job };

    ghost transitive: { (first second third : Self) → leads_to first second → leads_to second third → leads_to first third };
}
