// The widths of the fields of a sheet, in bits.
use format::{FORM_BITS, LABEL_BITS, PLACES_BITS, TRANSITIONS_BITS, WEIGHT_BITS};

// The format's constants are u8, as the writer takes them; an offset is a usize, and a const argument is not computed, so each width is converted once, here.
pub(crate) const FORM_WIDTH: usize = FORM_BITS as usize;

pub(crate) const PLACES_WIDTH: usize = PLACES_BITS as usize;

pub(crate) const TRANSITIONS_WIDTH: usize = TRANSITIONS_BITS as usize;

pub(crate) const LABEL_WIDTH: usize = LABEL_BITS as usize;

pub(crate) const WEIGHT_WIDTH: usize = WEIGHT_BITS as usize;
