// The report on an input.
ghost use Rattle.std.specs.Prelude.{◌≡◌};
ghost use Rattle.report.specs.Frames.{sheet_in, after_frame, left_refusal, right_refusal};
ghost use Rattle.report.specs.Listing.{listing_of, Suffices};
ghost use Rattle.report.specs.Sides.{Tells};
ghost use Rattle.report.specs.Texts.{text_of};

use super::frame::split_frame;
use super::line::side_line;
use super::side::{Side, SideRefusal, read_frame, read_sheet};
use super::text::Text;
use arrayvec::ArrayString;
use format::LONGEST_SHEET;

/// As many bytes of an input as can count: two frames, each with the longest sheet.
pub const INPUT_LIMIT: usize = 2 * (2 + LONGEST_SHEET);

// The left and the right side of an input. After a left frame that is refused the right one is not read.
fn read_sides(input: &[u8]) -> (Side, Side)
    ensures left { Tells result.0 (left_refusal input.now) (sheet_in input.now) }
    ensures right { Tells result.1 (right_refusal input.now) (sheet_in (after_frame input.now)) }
{
    match split_frame(input) {
        Some((left, rest)) => (read_sheet(left), read_frame(rest)),
        None => (Err(SideRefusal::Frame), Err(SideRefusal::Frame)),
    }
}

/// The report on an input: a line for the left side, then one for the right. Bytes past the limit do not count.
#[tactic(auto, using(crate::proofs::Telling::tells_line, crate::proofs::Ignored::listing_more), unfolding(crate::specs::Listing::listing_of))]
pub fn report(input: &[u8]) -> Text
    ensures bytes { text_of result ≡ listing_of input.now }
    ensures ignored { Suffices INPUT_LIMIT input.now }
{
    let (left, right) = read_sides(input);
    let mut text = ArrayString::new();
    text.push_str(side_line(left).as_str());
    text.push_str(side_line(right).as_str());
    Text { text }
}
