// Registers and the words in them.
ghost use Rattle.std.specs.Prelude.{◌≡◌};
ghost use Rattle.word_semantics.specs.Registers as spec;

/// The word in a register, and 0 in one that the frame doesn't have.
pub fn register(registers: &[u64], r: u32) -> u64
    ensures { result ≡ spec.register registers.now r }
{
    registers.get(r as usize).copied().unwrap_or(0)
}
