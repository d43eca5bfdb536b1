// What is reported of a reduced net.

/// The length of the end sheet in bytes, how many rounds of folding parted something, and the number of arrangements of the folded
/// net.
#[derive(Clone, Copy, PartialEq, Eq, Debug)]
pub struct Reduction {
    pub length: usize,
    pub rounds: u8,
    pub arrangements: u16,
}
