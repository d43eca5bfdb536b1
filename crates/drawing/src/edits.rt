// The edits of a drawing. A count goes up before the new label is written, since the labels past it are 0.
ghost use Rattle.std.specs.Prelude.{◌≡◌, ◌<◌, ◌≤◌, length, MatchResult, IfOk};
ghost use Rattle.net.specs.Model.{empty, highest_label};
ghost use Rattle.drawing.specs.Arrays.{bag_of, row_or_blank};
ghost use Rattle.drawing.specs.Drawn.{drawn};
ghost use Rattle.drawing.specs.Edits.{with_place, with_transition, with_weight};
ghost use Rattle.drawing.specs.Refusals.{refusal_of, add_refusal, place_refusal, transition_refusal, weight_refusal};

use crate::Drawing;
use crate::arrays::{Arrays, Row};
use crate::refusal::DrawingRefusal;
use net::bag::{Bag, bag_size};
use net::limits::{HIGHEST_LABEL, LARGEST_BAG, MOST_PLACES, MOST_TRANSITIONS};
use net::numbers::{Label, PlaceNo, TransitionNo};

// Refuses a node that would be one too many, where `used` of at most `most` are in use, or that has too high a label.
fn admit(used: u8, most: u8, label: Label) -> Result<(), DrawingRefusal>
    ensures refusal { refusal_of result ≡ add_refusal used most label.0 }
    ensures admitted { IfOk result (λ _. (used < most) × (label.0 ≤ highest_label)) }
{
    if used >= most {
        return Err(DrawingRefusal::Full);
    }
    if label.0 > HIGHEST_LABEL {
        return Err(DrawingRefusal::LabelTooHigh);
    }
    Ok(())
}

impl Drawing {
    /// A drawing of the empty net.
    pub fn new() -> Drawing
        ensures { drawn result ≡ empty }
    {
        let blank = Row {
            label: 0,
            cause: [0; 64],
            effect: [0; 64],
        };
        Drawing {
            arrays: Arrays {
                places: 0,
                transitions: 0,
                place_labels: [0; 64],
                rows: [blank; 128],
            },
        }
    }

    // The two that add a node share `admit`. What follows it differs in the count, in the array that holds the label (the places'
    // own, or the rows) and in the type of the number, so that one text for both would name all three.
    /// Adds a place at the end, with weights 0, and gives its number.
    #[tactic(auto, using(finite::proofs::Sums::sum_more))]
    pub fn add_place(&mut self, label: Label) -> Result<PlaceNo, DrawingRefusal>
        ensures refusal { refusal_of result ≡ place_refusal (drawn self.old) label.0 }
        ensures after { MatchResult result (λ no. (no.0 ≡ (drawn self.old).places) × (drawn self.new ≡ with_place (drawn self.old) label.0)) (λ _. self.new ≡ self.old) }
    {
        let place = self.arrays.places;
        admit(place, MOST_PLACES, label)?;
        self.arrays.places += 1;
        self.arrays.place_labels[usize::from(place)] = label.0;
        Ok(PlaceNo(place))
    }

    /// Adds a transition at the end, with weights 0, and gives its number.
    pub fn add_transition(&mut self, label: Label) -> Result<TransitionNo, DrawingRefusal>
        ensures refusal { refusal_of result ≡ transition_refusal (drawn self.old) label.0 }
        ensures after { MatchResult result (λ no. (no.0 ≡ (drawn self.old).transitions) × (drawn self.new ≡ with_transition (drawn self.old) label.0)) (λ _. self.new ≡ self.old) }
    {
        let transition = self.arrays.transitions;
        admit(transition, MOST_TRANSITIONS, label)?;
        self.arrays.transitions += 1;
        self.arrays.rows[usize::from(transition)].label = label.0;
        Ok(TransitionNo(transition))
    }

    // A copy of the weights of a transition's bag. An edit sums this copy, with the new weight in it: the sum over whichever of a
    // row's two bags is asked for would go weight by weight.
    fn weights(&self, bag: Bag, transition: TransitionNo) -> [u8; 64]
        requires { transition.0 < 128 }
        ensures weights { result ≡ bag_of bag (row_or_blank self.now.arrays.rows transition.0) }
        ensures long { length result ≡ 64 }
    {
        *self.arrays.rows[usize::from(transition.0)].bag(bag)
    }

    // Bag, transition and place are no struct: a caller goes through bags, transitions and places each by itself, as it does where
    // it asks for the weights, and would build the struct for one call.
    /// Replaces one weight of a transition's cause or effect.
    pub fn set_weight(
        &mut self,
        bag: Bag,
        transition: TransitionNo,
        place: PlaceNo,
        weight: u8,
    ) -> Result<(), DrawingRefusal>
        ensures refusal { refusal_of result ≡ weight_refusal bag (drawn self.old) transition.0 place.0 weight }
        ensures after { MatchResult result (λ _. drawn self.new ≡ with_weight bag (drawn self.old) transition.0 place.0 weight) (λ _. self.new ≡ self.old) }
    {
        if transition.0 >= self.arrays.transitions || place.0 >= self.arrays.places {
            return Err(DrawingRefusal::NoSuchNumber);
        }
        let mut weights = self.weights(bag, transition);
        weights[usize::from(place.0)] = weight;
        if bag_size(&weights) > LARGEST_BAG {
            return Err(DrawingRefusal::BagTooLarge);
        }
        let mut row = self.arrays.rows[usize::from(transition.0)];
        row.set_weight(bag, place, weight);
        self.arrays.rows[usize::from(transition.0)] = row;
        Ok(())
    }
}
