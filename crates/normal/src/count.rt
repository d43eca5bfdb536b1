// The number of arrangements of a net.
ghost use Rattle.std.specs.Prelude.{◌≡◌, suc, ◌<◌, ◌≤◌, ◌==◌, length, count_by, MatchOption};
ghost use Rattle.finite.specs.Products.{product_below};
ghost use Rattle.normal.specs.Counts.{choices, most_arrangements};

use drawing::arrays::Arrays;

/// The most arrangements of a net that is reduced.
pub const MOST_ARRANGEMENTS: u32 = 40320;

// One more than how many of the earlier places have a label: in so many ways a place with it can be put among them.
fn choices(earlier: &[u16], label: u16) -> u32
    requires { length earlier.now < 64 }
    ensures { (result ≡ suc (count_by (λ other. other == label) earlier.now)) × (result ≤ 64) }
{
    1 + earlier.iter().filter(|other| **other == label).count() as u32
}

// The number of arrangements of a drawn net's places, by their labels; none if it is over 40,320.
pub(crate) fn count_arrangements(net: &Arrays) -> Option<u16>
    ensures { MatchOption result (most_arrangements < product_below net.now.places (choices net.now.place_labels)) (λ w. (w ≡ product_below net.now.places (choices net.now.place_labels)) × (w ≤ most_arrangements)) }
{
    let labels = &net.place_labels;
    let mut ways: u32 = 1;
    for (p, label) in labels[..usize::from(net.places)].iter().enumerate() {
        ways *= choices(&labels[..p], *label);
        if ways > MOST_ARRANGEMENTS {
            return None;
        }
    }
    Some(ways as u16)
}
