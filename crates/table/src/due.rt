// The due of an accepted lead.
ghost use Rattle.std.specs.Prelude.{◌≡◌};
ghost use Rattle.table.specs.Tables.{handed_back};

use play::kinds::Lead;

/// A due: the token that an accepted lead hands out, and that must be spent by answer, withdraw or write_off. It can be neither
/// copied nor dropped.
pub struct Due {
    pub(crate) lead: Lead,
}

impl Due {
    /// The lead that the due records.
    pub fn lead(&self) -> Lead
        ensures { result ≡ self.now.lead }
    {
        self.lead
    }

    /// Spends the due and asks no table: one that owes it goes on owing it. What the due recorded is handed back.
    pub fn write_off(self) -> Lead
        ensures { result ≡ self.lead }
    {
        let Due { lead } = self;
        lead
    }

    // Spends the due of a call that was accepted, and hands that of a refused one back.
    pub(crate) fn settle<E>(self, said: Result<(), E>) -> Result<(), (E, Due)>
        ensures { result ≡ handed_back self said }
    {
        // Not by `map_err`: its closure would hold the due, and a closure may hold only what can be dropped.
        match said {
            Ok(()) => {
                let _ = self.write_off();
                Ok(())
            }
            Err(refusal) => Err((refusal, self)),
        }
    }
}
