// The number of a group among the groups, and where a number stands in an order.
ghost use Rattle.std.specs.Prelude.{◌≡◌, ◌<◌, ◌≤◌, length, MatchOption};
ghost use Rattle.finite.specs.Injections.{inverse};
ghost use Rattle.arrangement.specs.Arrangements.{at};
ghost use Rattle.normal.specs.Seatings.{group_number};

// The number of the group that a leader leads: how many leaders come before it.
pub(crate) fn group_number(leaders: &[u8], leader: u8) -> u8
    requires { leader ≤ length leaders.now }
    ensures { (result ≡ group_number leaders.now leader) × (result ≤ leader) }
{
    (0..leader)
        .filter(|q| leaders[usize::from(*q)] == *q)
        .count() as u8
}

// The position at which a number stands in an order, none where it does not.
pub(crate) fn position_of(order: &[u8], x: u8) -> Option<u8>
    requires { length order.now < 256 }
    ensures { MatchOption result (inverse (at order.now) (length order.now) x ≡ length order.now) (λ i. (i < length order.now) × (i ≡ inverse (at order.now) (length order.now) x)) }
{
    let position = order.iter().position(|y| *y == x)?;
    Some(position as u8)
}
