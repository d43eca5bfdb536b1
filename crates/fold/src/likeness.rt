// A likeness of nodes: a test that is an equivalence.
ghost use Rattle.std.specs.Prelude.{◌≡◌, ℕ, ◌<◌, Bool};
ghost use Rattle.bisimulation.specs.Groups.{Equivalence};

use net::node::Node;

/// Which nodes of one kind are alike, of so many.
pub trait Likeness<K: Node> {
    // how many nodes there are
    ghost size: { Self → ℕ };

    // whether the nodes with two numbers are alike
    ghost like: { Self → ℕ → ℕ → Bool };

    /// How many nodes there are.
    fn size(&self) -> u8
        ensures { result ≡ size self.now };

    /// Whether two of them are alike.
    fn alike(&self, a: K, b: K) -> bool
        requires { (K.number a < size self.now) × (K.number b < size self.now) }
        ensures { result ≡ like self.now (K.number a) (K.number b) };

    // it is an equivalence
    ghost laws: { (x : Self) → Equivalence (size x) (like x) };
}
