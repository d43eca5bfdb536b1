// A shift: a move of one side, to be made or undone, whose tokens to be taken off are there.
ghost use Rattle.table.specs.Views.{net_of, held, CoversBag};

use super::Half;
use net::bag::Bag;
use play::kinds::Move;

pub mod after;

/// A move to be made, which takes its cause off the side's places and puts its effect on them, or one to be undone, which takes its
/// effect off and puts its cause on. The tokens there cover what it takes off.
#[derive(Clone, Copy)]
pub struct Shift<'h> {
    pub(crate) half: &'h Half,
    pub(crate) step: Move,
    pub(crate) off: Bag,
    ghost covered: { CoversBag (net_of half.now) (held half.now) off step.sort step.number },
}
