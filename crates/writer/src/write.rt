// Writing the sheet of a net.
ghost use Rattle.std.specs.Prelude.{◌≡◌, ◌<◌, ◌≤◌, ◌++◌, length, take, drop, IfOk, MatchResult};
ghost use Rattle.net.specs.Bags.{weights};
ghost use Rattle.format.specs.Sheets.{head_of, labels_of, row_of, rows_of, weights_of, fields_of, sheet_of};
ghost use Rattle.writer.specs.Ink.{Writes, HasRoom};
ghost use Rattle.writer.specs.Refusals.{refusal_of, buffer_refusal};
ghost use Rattle.writer.specs.RoundTrip.{RoundTrip};

use super::pen::Pen;
use super::refusal::WriteRefusal;
use format::{
    FORM, FORM_BITS, LABEL_BITS, LONGEST_SHEET, PLACES_BITS, TRANSITIONS_BITS, WEIGHT_BITS,
};
use net::bag::{Bag, weight};
use net::interface::Net;
use net::node::label_number;
use net::numbers::{PlaceNo, TransitionNo};

// The six functions below take a net and a pen: a struct of both would lend both in each call, and shorten no clause.
// The loops of three of them stay three: one over a closure that writes a part asks for a longer contract than the three have.

// Writes the form and the two counts.
fn write_head<N: Net>(net: &N, pen: &mut Pen)
    requires { HasRoom (head_of (N.model net.now)) pen.old }
    ensures { Writes (head_of (N.model net.now)) pen.old pen.new }
{
    pen.push(FORM_BITS, u16::from(FORM));
    pen.push(PLACES_BITS, u16::from(net.places()));
    pen.push(TRANSITIONS_BITS, u16::from(net.transitions()));
}

// Writes the label of each place.
fn write_labels<N: Net>(net: &N, pen: &mut Pen)
    requires { HasRoom (labels_of (N.model net.now)) pen.old }
    ensures { Writes (labels_of (N.model net.now)) pen.old pen.new }
{
    for p in 0..net.places() {
        pen.push(LABEL_BITS, label_number(net, PlaceNo(p)));
    }
}

// Writes one bag of a transition.
fn write_bag<N: Net>(net: &N, bag: Bag, t: TransitionNo, pen: &mut Pen)
    requires { HasRoom (weights_of (weights bag (N.model net.now) t.0) (N.model net.now).places) pen.old }
    ensures { Writes (weights_of (weights bag (N.model net.now) t.0) (N.model net.now).places) pen.old pen.new }
{
    for p in 0..net.places() {
        pen.push(WEIGHT_BITS, u16::from(weight(net, bag, t, PlaceNo(p))));
    }
}

// Writes a transition: its label, its cause and its effect.
fn write_row<N: Net>(net: &N, t: TransitionNo, pen: &mut Pen)
    requires { HasRoom (row_of (N.model net.now) t.0) pen.old }
    ensures { Writes (row_of (N.model net.now) t.0) pen.old pen.new }
{
    pen.push(LABEL_BITS, label_number(net, t));
    write_bag(net, Bag::Cause, t, pen);
    write_bag(net, Bag::Effect, t, pen);
}

// Writes all transitions.
fn write_rows<N: Net>(net: &N, pen: &mut Pen)
    requires { HasRoom (rows_of (N.model net.now)) pen.old }
    ensures { Writes (rows_of (N.model net.now)) pen.old pen.new }
{
    for t in 0..net.transitions() {
        write_row(net, TransitionNo(t), pen);
    }
}

// Writes all fields of a net's sheet.
fn write_fields<N: Net>(net: &N, pen: &mut Pen)
    requires { HasRoom (fields_of (N.model net.now)) pen.old }
    ensures { Writes (fields_of (N.model net.now)) pen.old pen.new }
{
    write_head(net, pen);
    write_labels(net, pen);
    write_rows(net, pen);
}

/// Writes the sheet of a net at the front of the buffer and gives its length; the bytes past it keep what they held.
/// What is written reads as the same net, and has the old bytes of every lawful sheet that the net was read from.
pub fn write<N: Net>(net: &N, buffer: &mut [u8]) -> Result<usize, WriteRefusal>
    ensures refusal { refusal_of result ≡ buffer_refusal buffer.old }
    ensures after { MatchResult result
        (λ n. (n ≡ length (sheet_of (N.model net.now))) × (buffer.new ≡ sheet_of (N.model net.now) ++ drop n buffer.old))
        (λ _. buffer.new ≡ buffer.old) }
    ensures short { IfOk result (λ n. n ≤ 16627) }
    ensures round_trip { IfOk result (λ n. RoundTrip (N.model net.now) (take n buffer.new)) }
{
    let room = buffer.len();
    if room < LONGEST_SHEET {
        return Err(WriteRefusal::ShortBuffer);
    }
    let mut pen = Pen::new(buffer);
    write_fields(net, &mut pen);
    Ok(pen.finish())
}
