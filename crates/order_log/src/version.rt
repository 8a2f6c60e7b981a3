ghost use Rattle.std.specs.Prelude.{◌≡◌};
ghost use Rattle.order_log.specs.Text.{has_word, version_line};

use sync_objects::OpName;

/// The form of a log's text.
#[derive(Clone, Copy)]
pub enum Version {
    /// Each entry has a line of its own, and none is of a read-write lock.
    One,
    /// Takes of neighbouring stripes share a line, and so do gives.
    Two,
}

impl Version {
    /// The first line of a log's text, without its newline.
    pub fn line(self) -> &'static [u8]
        ensures { result.now ≡ version_line self }
    {
        match self {
            Version::One => b"chimera log 1",
            Version::Two => b"chimera log 2",
        }
    }

    /// Whether the operation has a word in this version: version 1 has none for read-write locks.
    pub fn has_word(self, op: OpName) -> bool
        ensures { result ≡ has_word self op }
    {
        match self {
            Version::One => !matches!(
                op,
                OpName::RdLock | OpName::WrLock | OpName::RwUnlock | OpName::RwInit
            ),
            Version::Two => true,
        }
    }
}
