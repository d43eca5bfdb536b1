// A reader of sheets.
ghost use Rattle.std.specs.Prelude.{◌≡◌};
ghost use Rattle.format.specs.Sheets.{sheet_refusal};

use crate::fields::Fields;

pub mod answers;
pub mod open;

/// A lawful sheet in the caller's bytes.
#[derive(Clone, Copy)]
pub struct SheetReader<'a> {
    fields: Fields<'a>,
    ghost lawful: { sheet_refusal fields.bytes.now ≡ 0 },
}
