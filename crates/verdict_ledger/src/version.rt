//! The versions of a ledger.
ghost use Rattle.std.specs.Prelude.{◌≡◌};
ghost use Rattle.verdict_ledger.specs.Text.{ledger_head};

/// A version of the ledger's text, as its first line says it.
#[derive(Clone, Copy, Debug, PartialEq, Eq)]
pub enum LedgerVersion {
    /// Version 2: the line of a frame has eleven fields.
    Two,
    /// Version 3: a twelfth has the frame's length on the wire, in bytes.
    Three,
}

impl LedgerVersion {
    /// The first line of a ledger: the format, and its version.
    #[tactic(auto, unfolding(crate::specs::Text::ledger_head))]
    pub fn head(self) -> &'static str
        ensures { result.now ≡ ledger_head self }
    {
        match self {
            LedgerVersion::Two => "afdx-ledger 2\n",
            LedgerVersion::Three => "afdx-ledger 3\n",
        }
    }
}
