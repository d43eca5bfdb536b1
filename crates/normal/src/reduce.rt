// Reducing a net to its end sheet.
ghost use Rattle.std.specs.Prelude.{◌≡◌, ◌≤◌, ◌++◌, length, drop, MatchResult};
ghost use Rattle.drawing.specs.Drawn.{drawn};
ghost use Rattle.bisimulation.specs.Rounds.{final};
ghost use Rattle.bisimulation.specs.Folding.{folded};
ghost use Rattle.fold.specs.Divides.{Divides};
ghost use Rattle.arrangement.specs.Arrangements.{Distinct};
ghost use Rattle.arrangement.specs.EndSheets.{least_sheet, end_sheet, NormalForm};
ghost use Rattle.arrangement.specs.Seats.{Seating};
ghost use Rattle.search.specs.Ranked.{Ranked};
ghost use Rattle.writer.specs.Refusals.{refusal_of, buffer_refusal};
ghost use Rattle.normal.specs.Seatings.{seated_by, SeatsAlong};
ghost use Rattle.normal.specs.Reductions.{reduce_says, reduced_buffer};

use super::count::count_arrangements;
use super::ordered::Ordered;
use super::reduction::Reduction;
use super::refusal::ReduceRefusal;
use super::seats::{Seats, SeatsOf};
use drawing::Drawing;
use fold::fold::fold;
use fold::folded::Folded;
use fold::grouping::Grouping;
use format::LONGEST_SHEET;
use net::interface::Net;
use search::least::least_arrangement;
use search::ranking::Ranking;
use writer::refusal::WriteRefusal;
use writer::write::write;

// The folded net of a net with its own groups at rest, as a drawing.
fn draw_folded<N: Net>(net: &N, groups: &Grouping) -> Drawing
    requires { Divides (N.model net.now).places (N.model net.now).transitions (final (N.model net.now)) groups.now }
    ensures { drawn result ≡ folded (N.model net.now) }
{
    let folded = Folded::over(net, groups);
    Drawing::copy_of(&folded)
}

// Writes the sheet of a net in the order of its ranking, which is the least, and gives its length.
fn write_ranked(net: &Drawing, ranking: Ranking, buffer: &mut [u8]) -> Result<usize, WriteRefusal>
    requires distinct { Distinct (drawn net.now) }
    requires ranked { Ranked (drawn net.now) ranking }
    ensures refusal { refusal_of result ≡ buffer_refusal buffer.old }
    ensures after { MatchResult result
        (λ n. (n ≡ length (least_sheet (drawn net.now))) × (buffer.new ≡ least_sheet (drawn net.now) ++ drop n buffer.old))
        (λ _. buffer.new ≡ buffer.old) }
{
    let ordered = Ordered { net, ranking };
    write(&ordered, buffer)
}

// The seats of a net's places and transitions, from the leaders of their groups and the ranking of the groups, whose counts come
// beside it: a ranking has none, as `Ranking` says.
fn seats_along<N: Net>(
    net: &N,
    groups: &Grouping,
    places: u8,
    transitions: u8,
    ranking: &Ranking,
) -> Seats
    requires few { (places ≤ 64) × (transitions ≤ 128) }
    requires divides { Divides (N.model net.now).places (N.model net.now).transitions (final (N.model net.now)) groups.now }
    ensures places { SeatsAlong (N.model net.now).places groups.now.places.leaders places ranking.now.places result.places.seats }
    ensures transitions { SeatsAlong (N.model net.now).transitions groups.now.transitions.leaders transitions ranking.now.transitions result.transitions.seats }
{
    Seats {
        places: SeatsOf::along(net, &groups.places, &ranking.places, places),
        transitions: SeatsOf::along(net, &groups.transitions, &ranking.transitions, transitions),
    }
}

/// Reduces a net as `reduce` does, and gives the seats that go with its end sheet. Refused, the seats are as before.
pub fn reduce_seated<N: Net>(
    net: &N,
    buffer: &mut [u8],
    seats: &mut Seats,
) -> Result<Reduction, ReduceRefusal>
    ensures says { result ≡ reduce_says (N.model net.now) buffer.old }
    ensures after { buffer.new ≡ reduced_buffer (N.model net.now) buffer.old }
    ensures seats { MatchResult result (λ _. Seating (seated_by (N.model net.now) seats.new)) (λ _. seats.new ≡ seats.old) }
{
    if buffer.len() < LONGEST_SHEET {
        return Err(ReduceRefusal::ShortBuffer);
    }
    let mut groups = Grouping::new();
    let (places, transitions, rounds) = fold(net, &mut groups);
    let folded = draw_folded(net, &groups);
    let counted = count_arrangements(folded.arrays());
    let arrangements = counted.ok_or(ReduceRefusal::TooManyArrangements)?;
    let ranking = least_arrangement(folded.arrays());
    let length = write_ranked(&folded, ranking, buffer)?;
    *seats = seats_along(net, &groups, places, transitions, &ranking);
    Ok(Reduction {
        length,
        rounds,
        arrangements,
    })
}

/// Reduces a net: writes its end sheet at the front of the buffer and gives its length, the number of rounds that parted
/// something and the number of arrangements. The bytes past the end sheet keep what they held; a refused reduction leaves the
/// buffer as before. The end sheet is a lawful sheet, of a net that is alike to this one, and its own end sheet.
pub fn reduce<N: Net>(net: &N, buffer: &mut [u8]) -> Result<Reduction, ReduceRefusal>
    ensures says { result ≡ reduce_says (N.model net.now) buffer.old }
    ensures after { buffer.new ≡ reduced_buffer (N.model net.now) buffer.old }
    ensures normal { NormalForm (N.model net.now) (end_sheet (N.model net.now)) }
{
    let mut seats = Seats::new();
    reduce_seated(net, buffer, &mut seats)
}
