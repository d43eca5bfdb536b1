// The tokens of a side after a shift.
ghost use Rattle.std.specs.Prelude.{◌≡◌, ◌+◌, ◌<◌, ◌≤◌, take};
ghost use Rattle.play.specs.Moves.{most_tokens, total};
ghost use Rattle.table.specs.Views.{net_of, held, count_after};
ghost use Rattle.table.specs.Shifts.{held_after};

use super::Shift;
use net::interface::Net;

impl Shift<'_> {
    // The tokens on one place afterwards.
    fn count(&self, place: u8) -> u32
        requires { place < (net_of self.now.half.now).places }
        ensures value { result ≡ count_after (net_of self.now.half.now) (held self.now.half.now) self.now.off self.now.step.sort self.now.step.number place }
        ensures bound { result ≤ most_tokens + 255 }
    {
        let off = self.half.weight(self.off, self.step, place);
        let on = self.half.weight(self.off.other(), self.step, place);
        self.half.tokens_at(place) - u32::from(off) + u32::from(on)
    }

    /// The tokens afterwards.
    // Inlined, so that the bag that it takes off is known, and no turn of the loop asks for it.
    #[inline(always)]
    pub fn tokens(&self) -> [u32; 64]
        ensures { take (net_of self.now.half.now).places result ≡ held_after self.now }
    {
        let mut new = [0; 64];
        // `as`, since with `usize::from` the proof of the loop did not close. A loop over the places: `from_fn` fills all 64, and would need a test for those past the last, where `count` may not be asked.
        for x in 0..self.half.net.places() {
            new[x as usize] = self.count(x);
        }
        new
    }

    /// How many tokens there are in all afterwards.
    pub fn total(&self) -> u32
        ensures { result ≡ total (net_of self.now.half.now) (held_after self.now) }
    {
        (0..self.half.net.places()).map(|x| self.count(x)).sum()
    }
}
