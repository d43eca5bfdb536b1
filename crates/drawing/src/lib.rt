// Nets that are drawn: a drawing begins empty and is edited, or is a copy of another net.
#![tactic(auto)]

ghost use Rattle.net.specs.Model.{Lawful};
ghost use Rattle.drawing.specs.Arrays.{model_of};

use arrays::Arrays;

pub mod answers;
pub mod arrays;
pub mod copy;
pub mod edits;
pub mod refusal;

// Contracts say `drawn d` for the net of a drawing d. A model of `Drawing` would save the word, but the promise that a refused
// edit leaves the drawing as it was, `self.new ≡ self.old`, would then be of the net alone and no longer of its arrays.
/// A net in arrays. Every drawing that exists keeps the limits of a net.
#[derive(Drop)]
pub struct Drawing {
    arrays: Arrays,
    ghost lawful: { Lawful (model_of arrays) },
}
