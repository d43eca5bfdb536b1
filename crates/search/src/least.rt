// The least arrangement of a net.
ghost use Rattle.drawing.specs.Arrays.{model_of};
ghost use Rattle.arrangement.specs.Arrangements.{Distinct};
ghost use Rattle.search.specs.Ranked.{Ranked};

use super::cells::Cells;
use super::descent::Branch;
use super::found::Found;
use super::order::numbered;
use super::ranking::Ranking;
use drawing::arrays::Arrays;

/// The arrangement of the net with the least rows, and its transitions by their positions. It is public for the crate above
/// alone, which proves what is asked here: that no two transitions agree in label, cause and effect.
pub fn least_arrangement(net: &Arrays) -> Ranking
    requires { Distinct (model_of net.now) }
    ensures { Ranked (model_of net.now) result }
{
    let cells = Cells::of_labels(net);
    let mut order = numbered();
    cells.sort_rows(&mut order);
    let best = Ranking {
        places: cells.places,
        transitions: order,
    };
    let mut found = Found {
        net,
        best,
        last: order,
    };
    Branch {
        cells,
        order,
        fixed: 0,
    }
    .descend(&mut found);
    found.best
}
