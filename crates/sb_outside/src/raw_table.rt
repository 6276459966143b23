// A table of records, each a list of fields.
ghost use Rattle.std.specs.Prelude.{◌≡◌, ◌≤◌, ◌<◌, ◌-◌, [], ◌∷◌, ◌++◌, length, slice_index, slice_index_or, OnOk, OnErr};
ghost use Rattle.sb_outside.specs.Pieces.{pieces, AreEnds, with_last_item};
ghost use Rattle.sb_outside.specs.Records.{record_at};

use std::alloc::{AllocError, Global};
use std::marker::Model;

/// The records of a file of comma-separated values: each is a list of fields, and a field is any
/// bytes.
///
/// Records may differ in length. All numbers are from 0.
#[derive(Drop)]
pub struct RawTable {
    // The bytes of all fields, one after the other.
    bytes: Vec<u8>,
    // Where each field ends in `bytes`.
    field_ends: Vec<usize>,
    // Where each record ends in `field_ends`.
    record_ends: Vec<usize>,
}

impl Model for RawTable {
    ghost use Rattle.sb_outside.specs.Records.{Records};

    ghost Value = { Records };

    ghost use Rattle.sb_outside.specs.RawTable.{records_in, IsCut};

    ghost view = { records_in };

    ghost invariant = { IsCut };
}

// Where a piece begins: at the end of the one before.
fn start_of(ends: &[usize], index: usize) -> usize
    requires { index < length ends.now }
    ensures { result ≡ slice_index (0 ∷ ends.now) index }
{
    match index.checked_sub(1) {
        None => 0,
        Some(before) => ends[before],
    }
}

// How long the piece of this number is.
fn piece_len(ends: &[usize], index: usize) -> usize
    requires in_range { index < length ends.now }
    requires in_order { slice_index (0 ∷ ends.now) index ≤ slice_index ends.now index }
    ensures { result ≡ slice_index ends.now index - slice_index (0 ∷ ends.now) index }
{
    ends[index] - start_of(ends, index)
}

// The piece of this number.
#[tactic(auto, using(crate::proofs::Pieces::places, crate::proofs::Pieces::piece_at))]
fn piece<'a>(bytes: &'a [u8], ends: &[usize], index: usize) -> &'a [u8]
    requires in_range { index < length ends.now }
    requires cut { AreEnds 0 ends.now (length bytes.now) }
    ensures { result.now ≡ slice_index_or (pieces 0 ends.now bytes.now) index [] }
{
    &bytes[start_of(ends, index)..ends[index]]
}

impl RawTable {
    /// A table with no record. It takes no memory.
    pub fn new(alloc: Global) -> RawTable
        ensures { result ≡ [] }
    {
        RawTable {
            bytes: Vec::new(alloc),
            field_ends: Vec::new(alloc),
            record_ends: Vec::new(alloc),
        }
    }

    /// Adds a record without fields at the end.
    pub fn begin(&mut self) -> Result<(), AllocError>
        ensures added { OnOk result (self.new ≡ self.old ++ [] ∷ []) }
        ensures kept { OnErr result (self.new ≡ self.old) }
    {
        let end = self.field_ends.len();
        self.record_ends.push(end)?;
        Ok(())
    }

    /// Adds a field at the end of the last record.
    pub fn add(&mut self, field: &[u8]) -> Result<(), AllocError>
        requires { 0 < length self.old }
        ensures added { OnOk result (self.new ≡ with_last_item self.old field.now) }
        ensures kept { OnErr result (self.new ≡ self.old) }
    {
        // What may fail stands before what changes the view, so that a refused field leaves no
        // part.
        self.bytes.reserve(field.len())?;
        self.field_ends.push(self.bytes.len() + field.len())?;
        self.bytes.extend_from_slice(field).unwrap();
        let last = self.record_ends.len() - 1;
        self.record_ends[last] = self.field_ends.len();
        Ok(())
    }

    /// How many records there are.
    pub fn len(&self) -> usize
        ensures { result ≡ length self.now }
    {
        self.record_ends.len()
    }

    /// How many fields a record has.
    pub fn fields(&self, record_no: usize) -> usize
        requires { record_no < length self.now }
        ensures { result ≡ length (record_at self.now record_no) }
    {
        piece_len(self.record_ends.as_slice(), record_no)
    }

    /// The bytes of a field of a record.
    pub fn field(&self, record_no: usize, field_no: usize) -> &[u8]
        requires record_in_range { record_no < length self.now }
        requires field_in_range { field_no < length (record_at self.now record_no) }
        ensures { result.now ≡ slice_index_or (record_at self.now record_no) field_no [] }
    {
        let ends = self.field_ends.as_slice();
        let index = start_of(self.record_ends.as_slice(), record_no) + field_no;
        piece(self.bytes.as_slice(), ends, index)
    }
}
