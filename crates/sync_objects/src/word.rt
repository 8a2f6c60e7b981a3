ghost use Rattle.std.specs.Prelude.{◌≡◌};
ghost use Rattle.sync_objects.specs.Words.{number_of, state_of, word_of};

/// How many operations the object had so far: the high 32 bits of its word.
pub fn number_of(word: u64) -> u32
    ensures { result ≡ number_of word }
{
    (word >> 32) as u32
}

/// The packed state of the object: the low 32 bits of its word.
pub fn state_of(word: u64) -> u32
    ensures { result ≡ state_of word }
{
    (word & 0xffff_ffff) as u32
}

/// The word with this number and this packed state.
pub(crate) fn word_of(number: u32, state: u32) -> u64
    ensures { result ≡ word_of number state }
{
    ((number as u64) << 32) | state as u64
}
