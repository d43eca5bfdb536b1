// A net with its places and transitions in another order.
ghost use Rattle.finite.specs.Injections.{Injects};
ghost use Rattle.drawing.specs.Drawn.{drawn};
ghost use Rattle.arrangement.specs.Arrangements.{at};

use drawing::Drawing;
use search::ranking::Ranking;

pub mod answers;

/// A drawn net whose places and transitions stand in the order of a ranking. No place stands at two positions.
#[derive(Drop)]
pub struct Ordered<'a> {
    pub(crate) net: &'a Drawing,
    pub(crate) ranking: Ranking,
    ghost permutes: { Injects (at ranking.places) (drawn net.now).places (drawn net.now).places },
}
