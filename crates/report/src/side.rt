// One side of the report.
ghost use Rattle.std.specs.Prelude.{◌≡◌};
ghost use Rattle.format.specs.Sheets.{sheet_refusal};
ghost use Rattle.report.specs.declared.side.SideRefusal.TheVariants.{Sheet};
ghost use Rattle.report.specs.Frames.{sheet_in, left_refusal};
ghost use Rattle.report.specs.Listing.{net_numbers};
ghost use Rattle.report.specs.Sides.{number_of, numbers_of, Tells};

use super::frame::split_frame;
use fold::fold::fold;
use fold::grouping::Grouping;
use net::interface::Net;
use reader::refusal::SheetRefusal;
use reader::sheet::SheetReader;

// Why a side is refused.
#[derive(Clone, Copy)]
pub(crate) enum SideRefusal {
    // No whole frame with the length of a sheet, on this side or on the left.
    Frame,
    // The bytes in the frame are no sheet.
    Sheet(SheetRefusal),
}

impl SideRefusal {
    // The number under which the refusal is listed.
    pub(crate) fn number(self) -> u8
        ensures { result ≡ number_of self }
    {
        // No discriminant and `self as u8`, as in a refusal of plain variants: here a variant carries a refusal.
        match self {
            SideRefusal::Frame => 51,
            SideRefusal::Sheet(refusal) => refusal.number(),
        }
    }
}

impl From<SheetRefusal> for SideRefusal {
    ghost from_gives = { λ refusal side. side ≡ Sheet refusal };

    fn from(refusal: SheetRefusal) -> SideRefusal {
        SideRefusal::Sheet(refusal)
    }
}

// What is listed of a net.
#[derive(Clone, Copy)]
pub(crate) struct Counts {
    pub(crate) places: u8,
    pub(crate) transitions: u8,
    pub(crate) folded_places: u8,
    pub(crate) folded_transitions: u8,
    pub(crate) rounds: u8,
}

// What is known of a side.
pub(crate) type Side = Result<Counts, SideRefusal>;

// Counts what is listed of a net.
fn count<N: Net>(net: &N) -> Counts
    ensures { numbers_of result ≡ net_numbers (N.model net.now) }
{
    let mut groups = Grouping::new();
    let (folded_places, folded_transitions, rounds) = fold(net, &mut groups);
    Counts {
        places: net.places(),
        transitions: net.transitions(),
        folded_places,
        folded_transitions,
        rounds,
    }
}

// The side of a sheet.
pub(crate) fn read_sheet(sheet: &[u8]) -> Side
    ensures { Tells result (sheet_refusal sheet.now) sheet.now }
{
    let mut reader = SheetReader::new();
    reader.open(sheet)?;
    Ok(count(&reader))
}

// The side of the frame at the front of the bytes.
pub(crate) fn read_frame(bytes: &[u8]) -> Side
    ensures { Tells result (left_refusal bytes.now) (sheet_in bytes.now) }
{
    let (sheet, _) = split_frame(bytes).ok_or(SideRefusal::Frame)?;
    read_sheet(sheet)
}
