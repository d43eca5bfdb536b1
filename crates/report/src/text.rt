// The text of a report.
ghost use Rattle.std.specs.Prelude.{◌≡◌, ◌≤◌, length};
ghost use Rattle.report.specs.Texts.{text_of};

use arrayvec::ArrayString;

/// The text of a report, of at most 64 bytes.
#[derive(Clone, Copy)]
pub struct Text {
    pub(crate) text: ArrayString<64>,
}

impl Text {
    /// The bytes of the text.
    pub fn as_bytes(&self) -> &[u8]
        ensures value { result.now ≡ text_of self.now }
        ensures fits { length result.now ≤ 64 }
    {
        self.text.as_bytes()
    }
}
