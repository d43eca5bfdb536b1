// The sheet of a net, as bit fields in bytes: mostly definitions and lemmas, in specs/ and proofs/.
#![tactic(auto)]

/// The form of a sheet.
pub const FORM: u8 = 1;

/// The width of the form.
pub const FORM_BITS: u8 = 4;

/// The width of the number of places.
pub const PLACES_BITS: u8 = 7;

/// The width of the number of transitions.
pub const TRANSITIONS_BITS: u8 = 8;

/// The width of a label.
pub const LABEL_BITS: u8 = 10;

/// The width of a weight.
pub const WEIGHT_BITS: u8 = 8;

/// The bytes of the longest sheet.
pub const LONGEST_SHEET: usize = 16627;
