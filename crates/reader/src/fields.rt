// The fields of a sheet, where its head says that they lie.
ghost use Rattle.std.specs.Prelude.{◌≡◌, ◌*◌, ◌<◌, ◌≤◌, length};
ghost use Rattle.format.specs.Sheets.{bits_of, light_rows};
ghost use Rattle.reader.specs.Heads.{HeadOf};

use super::head::Head;
use super::row::Row;
use net::numbers::TransitionNo;

// Bytes that are long enough for all fields that their head announces, and that head.
#[derive(Clone, Copy)]
pub(crate) struct Fields<'a> {
    pub(crate) bytes: &'a [u8],
    pub(crate) head: Head,
    ghost headed: { HeadOf bytes.now head },
    ghost inside: { bits_of bytes.now ≤ 8 * length bytes.now },
}

impl<'a> Fields<'a> {
    // The row of a transition.
    pub(crate) fn row(&self, transition: TransitionNo) -> Row<'a>
        requires { transition.0 < self.now.head.transitions }
        ensures fields { result.fields ≡ self.now }
        ensures transition { result.transition ≡ transition }
    {
        Row {
            fields: *self,
            transition,
        }
    }

    // Whether no bag has a size above 255.
    pub(crate) fn all_light(&self) -> bool
        ensures { result ≡ light_rows self.now.bytes.now }
    {
        (0..self.head.transitions).all(|t| self.row(TransitionNo(t)).is_light())
    }
}
