// The tables that files are read as.
ghost use Rattle.std.specs.Prelude.{◌<◌, length, IfOk, IfSome};
ghost use Rattle.star_model.specs.WellFormed.{WellFormedCatalogue};

use catalogue::read_catalogue;
use star_model::catalogue::Catalogue;
use std::alloc::{AllocError, Global};

// The greatest length of a text in bytes.
const LONGEST: usize = 1_048_576;

/// The catalogue of the tables. No row has a text that says none.
pub fn catalogue_of(alloc: Global, text: &str) -> Result<Catalogue, AllocError>
    ensures { IfOk result (λ catalogue. WellFormedCatalogue catalogue) }
{
    if text.len() > LONGEST {
        return Err(AllocError);
    }
    match read_catalogue(alloc, text.as_bytes()) {
        Ok(catalogue) => Ok(catalogue),
        Err(_) => Err(AllocError),
    }
}

/// The place of the table of this name.
pub fn place_of(catalogue: &Catalogue, name: &str) -> Option<u8>
    ensures { IfSome result (λ place. place < length catalogue.now.tables) }
{
    let tables = catalogue.tables.as_slice();
    let place = tables
        .iter()
        .position(|table| table.name.as_slice() == name.as_bytes())?;
    u8::try_from(place).ok()
}
