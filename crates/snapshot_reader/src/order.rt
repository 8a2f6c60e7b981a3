// Numbers that come one after another.
ghost use Rattle.std.specs.Prelude.{◌≡◌};
ghost use Rattle.snapshots.specs.Conditions as conditions;

/// Whether the number comes after the one before, if there is one.
pub fn is_after(before: Option<u64>, n: u64) -> bool
    ensures { result ≡ conditions.is_after before n }
{
    match before {
        None => true,
        Some(m) => m < n,
    }
}

/// Whether the number doesn't fall below the one before, if there is one.
pub fn is_from(before: Option<u32>, n: u32) -> bool
    ensures { result ≡ conditions.is_from before n }
{
    match before {
        None => true,
        Some(m) => m <= n,
    }
}
