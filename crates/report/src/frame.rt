// The frame at the front of the input.
ghost use Rattle.std.specs.Prelude.{◌≡◌, true, false, MatchOption};
ghost use Rattle.report.specs.Frames.{framed, sheet_in, after_frame};

use format::LONGEST_SHEET;

// The sheet in the frame at the front of the bytes, and the bytes after the frame, if a whole frame stands there.
#[tactic(auto, unfolding(crate::specs::Frames::framed))]
pub(crate) fn split_frame(bytes: &[u8]) -> Option<(&[u8], &[u8])>
    ensures { MatchOption result (framed bytes.now ≡ false) (λ p. (framed bytes.now ≡ true) × (p.0.now ≡ sheet_in bytes.now) × (p.1.now ≡ after_frame bytes.now)) }
{
    let (length, rest) = bytes.split_first_chunk::<2>()?;
    let length = usize::from(u16::from_be_bytes(*length));
    if length > LONGEST_SHEET {
        return None;
    }
    rest.split_at_checked(length)
}
