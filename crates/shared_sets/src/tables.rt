// What one search has made.

ghost use Rattle.std.specs.Prelude.{◌≡◌, []};

use crate::glued_sets::GluedSets;
use crate::ref_table::RefTable;
use std::alloc::Global;

/// What a search has made so far, so that it is made once.
#[derive(Drop)]
pub struct Tables {
    pub references: RefTable,
    pub glued: GluedSets,
}

impl Tables {
    /// Empty tables. They take no memory.
    pub fn new(alloc: Global) -> Tables
        ensures references { result.references ≡ [] }
        ensures glued { result.glued ≡ [] }
    {
        Tables {
            references: RefTable::new(alloc),
            glued: GluedSets::new(alloc),
        }
    }
}
