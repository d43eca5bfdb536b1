// A pen that writes bit fields into a buffer.
ghost use Rattle.std.specs.Prelude.{◌^◌, ◌<◌};

pub(crate) mod strokes;

/// A buffer, where its next byte goes, and the bits that do not fill a byte yet.
// `at` stays beside the buffer: it is the length that `write` gives, and the bytes past it keep what they held.
#[derive(Drop)]
pub(crate) struct Pen<'b> {
    buffer: &'b mut [u8],
    at: usize,
    held: u8,
    count: u8,
    ghost short: { count < 8 },
    ghost below: { held < 2 ^ count },
}
