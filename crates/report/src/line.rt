// The line of a side.
ghost use Rattle.std.specs.Prelude.{◌≡◌, ◌<◌, [], ◌∷◌, ◌++◌, decimal};
ghost use Rattle.report.specs.Listing.{numbers_line, refused_line};
ghost use Rattle.report.specs.Sides.{number_of, numbers_of, line_of};

use super::side::{Counts, Side, SideRefusal};
use arrayvec::ArrayString;
use itoa::Buffer;

// A line of at most 24 bytes.
pub(crate) type Line = ArrayString<24>;

// A number and the character that ends it.
pub(crate) fn column(n: u8, end: char) -> ArrayString<4>
    requires { end < 128 }
    ensures { result.bytes ≡ decimal n ++ end ∷ [] }
{
    let mut column = ArrayString::new();
    column.push_str(Buffer::new().format(n));
    column.push(end);
    column
}

// What is counted of a net. A report cannot fail, and no clause of `write!` says that it succeeds: so each column is pushed.
// Five calls, since a loop over the columns asks for an invariant that says how many are written, and is no plainer.
fn counts_line(counts: Counts) -> Line
    ensures { result.bytes ≡ numbers_line (numbers_of counts) }
{
    let mut line = Line::new();
    line.push_str(column(counts.places, ' ').as_str());
    line.push_str(column(counts.transitions, ' ').as_str());
    line.push_str(column(counts.folded_places, ' ').as_str());
    line.push_str(column(counts.folded_transitions, ' ').as_str());
    line.push_str(column(counts.rounds, '\n').as_str());
    line
}

// What refuses a side.
fn refusal_line(refusal: SideRefusal) -> Line
    ensures { result.bytes ≡ refused_line (number_of refusal) }
{
    let mut line = Line::new();
    line.push_str("refused ");
    line.push_str(column(refusal.number(), '\n').as_str());
    line
}

// The line of a side.
pub(crate) fn side_line(side: Side) -> Line
    ensures { result.bytes ≡ line_of side }
{
    match side {
        Ok(counts) => counts_line(counts),
        Err(refusal) => refusal_line(refusal),
    }
}
