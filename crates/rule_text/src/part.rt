/// A slice of a text, and the place of its first byte in the text, in bytes from 0.
#[derive(Clone, Copy)]
pub struct Part<'a> {
    pub bytes: &'a [u8],
    pub at: u32,
}

impl<'a> Part<'a> {
    ghost use Rattle.std.specs.Prelude.{◌≡◌, ◌+◌, ◌≤◌, [], length, take, drop};
    ghost use Rattle.rule_text.specs.Parts.{FitsPlaces, end_of};

    /// The first bytes of the part.
    pub(crate) fn front(self, len: usize) -> Part<'a>
        requires { len ≤ length self.bytes.now }
        ensures place { result.at ≡ self.entry.at }
        ensures bytes { result.bytes.now ≡ take len self.entry.bytes.now }
    {
        Part {
            bytes: &self.bytes[..len],
            at: self.at,
        }
    }

    /// What follows the first bytes of the part.
    pub(crate) fn after(self, len: usize) -> Part<'a>
        requires within { len ≤ length self.bytes.now }
        requires fits { FitsPlaces self }
        ensures place { result.at ≡ self.entry.at + len }
        ensures bytes { result.bytes.now ≡ drop len self.entry.bytes.now }
    {
        Part {
            bytes: &self.bytes[len..],
            at: self.at + len as u32,
        }
    }

    /// The end of the part.
    pub(crate) fn end(self) -> Part<'a>
        requires { FitsPlaces self }
        ensures place { result.at ≡ end_of self.entry }
        ensures bytes { result.bytes.now ≡ [] }
    {
        self.after(self.bytes.len())
    }
}
