// How a run ended.
ghost use Rattle.std.specs.Prelude.{◌≡◌};
ghost use Rattle.stars_core.specs.Lines.{code_of};

/// How a run ended. All but `Done` and `NoPlan` put one line to the second sink.
#[derive(Clone, Copy, Debug, PartialEq, Eq)]
pub enum Status {
    /// The command's output was put.
    Done,
    /// The rules derive no plan for the query, and `no plan` was put.
    NoPlan,
    /// The words are no listed form of a command.
    Usage,
    /// The rule file is refused by its first fault.
    RulesRefused,
    /// The catalogue is refused by its first fault.
    CatalogueRefused,
    /// The query is refused by its first fault.
    QueryRefused,
    /// A table is refused by its first fault.
    TableRefused,
    /// The shelf failed at a file of the command.
    ReadFault,
    /// The first sink failed; it took a prefix of the output.
    WriteFault,
    /// Memory was wanting; nothing was put.
    Memory,
    /// A derivation is not one of the query by the rules.
    NotDerived,
    /// The text of a derivation is refused by its first fault.
    DerivationRefused,
    /// The text of a session is refused by its first fault.
    SessionRefused,
    /// A certificate is refused by its first fault.
    CertificateRefused,
}

impl Status {
    /// The number that the program ends with.
    pub fn code(self) -> u8
        ensures { result ≡ code_of self }
    {
        self as u8
    }
}

/// With which of two statuses a command ends that puts its text: with its output, or with
/// `no plan`.
#[derive(Clone, Copy, Debug, PartialEq, Eq)]
pub enum Ending {
    Done,
    NoPlan,
}
