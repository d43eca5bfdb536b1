// The likeness by labels, of places and of transitions.
ghost use Rattle.std.specs.Prelude.{nat_eq};
ghost use Rattle.fold.specs.Images.{by_image};

use super::likeness::Likeness;
use net::interface::Net;
use net::node::{Node, label_number};

/// Nodes with equal labels are alike.
#[derive(Drop)]
pub struct ByLabel<'n, N: Net> {
    pub(crate) net: &'n N,
}

impl<'n, K: Node, N: Net> Likeness<K> for ByLabel<'n, N> {
    ghost size = { λ x. K.Node.count (N.Net.model x.net.now) };

    ghost like = { λ x a b. nat_eq (K.Node.label (N.Net.model x.net.now) a) (K.Node.label (N.Net.model x.net.now) b) };

    ghost laws = { λ x. by_image (K.Node.count (N.Net.model x.net.now)) (K.Node.label (N.Net.model x.net.now)) };

    fn size(&self) -> u8 {
        K::count(self.net)
    }

    fn alike(&self, a: K, b: K) -> bool {
        label_number(self.net, a) == label_number(self.net, b)
    }
}
