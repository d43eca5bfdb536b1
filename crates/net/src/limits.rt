// The limits of a net.

/// The most places that a net can have.
pub const MOST_PLACES: u8 = 64;

/// The most transitions that a net can have.
pub const MOST_TRANSITIONS: u8 = 128;

/// The highest label.
pub const HIGHEST_LABEL: u16 = 1023;

/// The largest size of a cause or an effect.
pub const LARGEST_BAG: u16 = 255;
