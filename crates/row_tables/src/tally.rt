// What came of the rows of a table.
use crate::tables::Row;
use std::alloc::{AllocError, Global};

/// How many rows there were, and those of which something else came than is wanted.
#[derive(Debug, Drop)]
pub struct Tally {
    rows: u64,
    others: String,
}

impl Tally {
    pub fn new(alloc: Global) -> Tally {
        Tally {
            rows: 0,
            others: String::new(alloc),
        }
    }

    /// Adds a row, and what came of it.
    pub fn add(&mut self, row: &Row, came: &str) -> Result<(), AllocError> {
        self.rows = self.rows.saturating_add(1);
        if came != row.wanted.as_str() {
            for part in [row.line.as_str(), "\n    came: ", came, "\n"] {
                self.others.push_str(part)?;
            }
        }
        Ok(())
    }

    /// The number of rows, and on further lines the rows of which something else came, each with
    /// that.
    pub fn told(&self, alloc: Global) -> Result<String, AllocError> {
        let rows = self.rows;
        let others = self.others.as_str();
        format!(in alloc; "{rows} rows\n{others}")
    }
}
