// Opening a sheet.
ghost use Rattle.std.specs.Prelude.{◌≡◌, MatchResult};
ghost use Rattle.net.specs.Model.{empty};
ghost use Rattle.format.specs.Sheets.{sheet_refusal, net_of, sheet_of, LawfulSheet, SheetOfNet};
ghost use Rattle.reader.specs.Refusals.{refusal_of};
ghost use Rattle.reader.specs.Readers.{read_net};

use super::SheetReader;
use crate::check::check;
use crate::fields::Fields;
use crate::head::Head;
use crate::refusal::SheetRefusal;
use format::FORM;

// The sheet of the empty net.
static EMPTY: [u8; 3] = [16, 0, 0];

// Two steps, a reader and then `open` on it: after a refused sheet the reader answers as before, as its users ask.
impl<'a> SheetReader<'a> {
    /// A reader of the empty net.
    pub fn new() -> SheetReader<'a>
        ensures { read_net result ≡ empty }
    {
        let head = Head {
            form: FORM,
            places: 0,
            transitions: 0,
        };
        let fields = Fields {
            bytes: &EMPTY,
            head,
        };
        SheetReader { fields }
    }

    /// Reads the bytes from now on, unless they are refused; then the reader is as before.
    /// Exactly the sheets of lawful nets are read, and the sheet of what is read has the old bytes.
    pub fn open(&mut self, bytes: &'a [u8]) -> Result<(), SheetRefusal>
        ensures refusal { refusal_of result ≡ sheet_refusal bytes.now }
        ensures after { MatchResult result (λ _. (read_net self.new ≡ net_of bytes.now) × (sheet_of (read_net self.new) ≡ bytes.now)) (λ _. self.new ≡ self.old) }
        ensures lawful { MatchResult result (λ _. LawfulSheet bytes.now) (λ _. LawfulSheet bytes.now → ⊥) }
        ensures exact { MatchResult result (λ _. SheetOfNet bytes.now) (λ _. SheetOfNet bytes.now → ⊥) }
    {
        let fields = check(bytes)?;
        *self = SheetReader { fields };
        Ok(())
    }
}
