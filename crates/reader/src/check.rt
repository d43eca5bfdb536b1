// What refuses bytes as a sheet.
ghost use Rattle.std.specs.Prelude.{◌≡◌, IfOk};
ghost use Rattle.format.specs.Sheets.{sheet_refusal};
ghost use Rattle.reader.specs.Refusals.{refusal_of};

use super::fields::Fields;
use super::head::Head;
use super::refusal::SheetRefusal;
use format::FORM;
use net::limits::{MOST_PLACES, MOST_TRANSITIONS};

// The fields of a sheet, or the first condition that refuses the bytes.
pub(crate) fn check(bytes: &[u8]) -> Result<Fields<'_>, SheetRefusal>
    ensures refusal { refusal_of result ≡ sheet_refusal bytes.now }
    ensures whole { IfOk result (λ fields. fields.bytes.now ≡ bytes.now) }
{
    let head = Head::of(bytes).ok_or(SheetRefusal::Short)?;
    if head.form != FORM {
        return Err(SheetRefusal::Form);
    }
    if head.places > MOST_PLACES {
        return Err(SheetRefusal::Places);
    }
    if head.transitions > MOST_TRANSITIONS {
        return Err(SheetRefusal::Transitions);
    }
    let bits = head.bits();
    let length = bits.div_ceil(8);
    if bytes.len() != length {
        return Err(SheetRefusal::Length);
    }
    let fields = Fields { bytes, head };
    if !fields.all_light() {
        return Err(SheetRefusal::BagTooLarge);
    }
    if bytes[length - 1] & ((1 << (8 * length - bits)) - 1) != 0 {
        return Err(SheetRefusal::Fill);
    }
    Ok(fields)
}
