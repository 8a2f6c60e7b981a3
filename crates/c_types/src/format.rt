//! The conversions in the format of a `printf` (C99 7.19.6.1).
ghost use Rattle.std.specs.Prelude.{◌≡◌};
ghost use Rattle.c_types.specs.Format as spec;

/// What the bytes of a format so far end in.
#[derive(Clone, Copy, Debug)]
pub enum Inside {
    Text,
    /// `%`
    Percent,
    /// `%l`
    Long,
    /// `%ll`
    LongLong,
}

/// How many conversions the format has; none where one isn't `%d %i %ld %li %lld %lli %c` or `%%`.
pub fn conversions(format: &[u8]) -> Option<usize>
    ensures { result ≡ spec.conversions format.now }
{
    let mut inside = Inside::Text;
    let mut count: usize = 0;
    for byte in format {
        match (inside, *byte) {
            (Inside::Text, b'%') => inside = Inside::Percent,
            (Inside::Text, _) => {}
            (Inside::Percent, b'%') => inside = Inside::Text,
            (Inside::Percent, b'l') => inside = Inside::Long,
            (Inside::Long, b'l') => inside = Inside::LongLong,
            (Inside::Percent, b'c') => {
                inside = Inside::Text;
                count += 1;
            }
            (_, b'd' | b'i') => {
                inside = Inside::Text;
                count += 1;
            }
            _ => return None,
        }
    }
    match inside {
        Inside::Text => Some(count),
        Inside::Percent | Inside::Long | Inside::LongLong => None,
    }
}
