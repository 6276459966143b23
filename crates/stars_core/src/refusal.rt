// Why a command has no output.
ghost use Rattle.std.specs.Prelude.{◌≡◌};
ghost use Rattle.stars_core.specs.declared.refusal.Refusal.TheVariants.{Memory};
ghost use Rattle.stars_core.specs.Lines.{status_of, line_of};
ghost use Rattle.stars_core.specs.Refusals.{refusal_of, refusal_by};

use crate::Status;
use std::alloc::AllocError;
use table_taking::Stop;
use workload_runs::GenFault;

/// What a text is to be.
#[derive(Clone, Copy, Debug, PartialEq, Eq)]
pub enum TextKind {
    Rules,
    Catalogue,
    Query,
    Derivation,
}

/// Why a command has no output. A refusal carries its finished line, so that telling it takes no
/// memory.
#[derive(Drop)]
pub enum Refusal {
    /// The words are no listed form.
    Usage,
    /// The shelf failed at a file, which the line names.
    Unread(String),
    /// A text of this kind has a fault, which the line tells.
    Refused(TextKind, String),
    /// A table's file is too long, or its records have a fault, which the line tells.
    Table(String),
    /// A derivation is not one of the query by the rules; the line names its first invalid node.
    NotDerived(String),
    /// Memory was wanting.
    Memory,
}

impl From<AllocError> for Refusal {
    ghost from_gives = { λ _ e. e ≡ Memory };

    fn from(_: AllocError) -> Self {
        Refusal::Memory
    }
}

impl From<Stop> for Refusal {
    ghost from_gives = { λ stop e. e ≡ refusal_of stop };

    fn from(stop: Stop) -> Self {
        match stop {
            Stop::Unread(line) => Refusal::Unread(line),
            Stop::Refused(line) => Refusal::Table(line),
            Stop::Memory => Refusal::Memory,
        }
    }
}

impl From<GenFault> for Refusal {
    ghost from_gives = { λ fault e. e ≡ refusal_by fault };

    fn from(fault: GenFault) -> Self {
        match fault {
            GenFault::Size => Refusal::Usage,
            GenFault::Memory => Refusal::Memory,
        }
    }
}

impl Refusal {
    /// The status that it ends the run with.
    pub fn status(&self) -> Status
        ensures { result ≡ status_of self.now }
    {
        match self {
            Refusal::Usage => Status::Usage,
            Refusal::Unread(_) => Status::ReadFault,
            Refusal::Refused(TextKind::Rules, _) => Status::RulesRefused,
            Refusal::Refused(TextKind::Catalogue, _) => Status::CatalogueRefused,
            Refusal::Refused(TextKind::Query, _) => Status::QueryRefused,
            Refusal::Refused(TextKind::Derivation, _) => Status::DerivationRefused,
            Refusal::Table(_) => Status::TableRefused,
            Refusal::NotDerived(_) => Status::NotDerived,
            Refusal::Memory => Status::Memory,
        }
    }

    /// The line that tells it, with its line end.
    pub fn line(&self) -> &str
        ensures { result.now ≡ line_of self.now }
    {
        match self {
            Refusal::Usage => "usage: stars COMMAND FILE...\n",
            Refusal::Unread(line) => line.as_str(),
            Refusal::Refused(_, line) | Refusal::Table(line) => line.as_str(),
            Refusal::NotDerived(line) => line.as_str(),
            Refusal::Memory => "out of memory\n",
        }
    }
}
