// A shelf in memory, which tells its files.
ghost use Rattle.std.specs.Prelude.{◌≡◌, ◌≤◌, ◌+◌, Some, true, false, length, IfOk, IsErrOf, IsTrue, ◌↔◌};
ghost use Rattle.std.specs.Option.{option_copied};
ghost use Rattle.sb_outside.specs.Named.{first_named, FailsAtNumber};

use crate::{FailedCall, RawTable, RecordsFault, Shelf, ShelfFault, read_table};
use std::alloc::Global;

/// Files in memory, for tests.
#[derive(Drop)]
pub struct MemoryShelf {
    /// Names and bytes. Of two files of one name the first is held.
    pub files: Vec<(String, Vec<u8>)>,
    /// The numbers of calls that fail, from 1.
    pub failing: Vec<u32>,
    /// How many calls there were. It stays at its last value, and each call past that number fails.
    pub calls: u32,
    /// How many calls failed.
    pub faults: u64,
    /// How many bytes were taken: those of each file that was given, also as records, and `max + 1`
    /// of one that was too long.
    pub taken: u64,
    /// The call that failed last.
    pub last: Option<FailedCall>,
}

// The bytes of the first file of this name.
fn find<'a>(files: &'a [(String, Vec<u8>)], name: &str) -> Option<&'a [u8]>
    ensures { option_copied result ≡ first_named files.now name.now }
{
    files
        .iter()
        .find(|file| file.0.as_str() == name)
        .map(|file| file.1.as_slice())
}

// Whether the call after so many is one that fails.
fn is_failing(failing: &[u32], calls: u32) -> bool
    ensures { IsTrue result ↔ FailsAtNumber failing.now calls }
{
    match calls.checked_add(1) {
        None => true,
        Some(number) => failing.contains(&number),
    }
}

impl MemoryShelf {
    ghost use Rattle.sb_outside.specs.MemoryShelf.{Asked, after_taking, after_failing};

    // The bytes of this name, where the next call doesn't fail.
    fn ask(&self, name: &str) -> Option<&[u8]>
        ensures { Asked self.now name.now (option_copied result) }
    {
        if is_failing(&self.failing, self.calls) {
            None
        } else {
            find(&self.files, name)
        }
    }

    // Counts a call that took so many bytes.
    fn count_taken(&mut self, bytes: u64)
        ensures { self.new ≡ after_taking self.old bytes }
    {
        self.calls = self.calls.saturating_add(1);
        self.taken = self.taken.saturating_add(bytes);
    }

    // Counts a call that failed, and keeps it.
    fn count_failed(&mut self, call: FailedCall)
        ensures { self.new ≡ after_failing self.old call }
    {
        self.calls = self.calls.saturating_add(1);
        self.faults = self.faults.saturating_add(1);
        self.last = Some(call);
    }
}

impl Shelf for MemoryShelf {
    ghost use Rattle.sb_outside.specs.Counts.{RoseBy};
    ghost use Rattle.sb_outside.specs.Shelf.{TellsBytes, TellsMore, TellsRecords, Goes, FailsAt, NoFault};
    ghost use Rattle.sb_outside.specs.MemoryShelf.{state_of, AnswersBytes, AnswersRecords};

    ghost state = { state_of };

    fn bytes(&mut self, alloc: Global, name: &str, max: usize) -> Result<Vec<u8>, ShelfFault>
        ensures goes { Goes (state_of self.old) (state_of self.new) }
        ensures within { IfOk result (λ bytes. length bytes.items ≤ max) }
        ensures told { IfOk result (λ bytes. TellsBytes (state_of self.old).held name.now
            bytes.items) }
        ensures failed { IsErrOf result ShelfFault.Failed
            → FailsAt (state_of self.old) (state_of self.new) (false, name.now) }
        ensures no_fault { (IsErrOf result ShelfFault.Failed → ⊥)
            → NoFault (state_of self.old) (state_of self.new) }
        ensures too_long { IsErrOf result ShelfFault.TooLong
            → RoseBy (max + 1) (state_of self.old).taken (state_of self.new).taken }
        ensures told_too_long { IsErrOf result ShelfFault.TooLong
            → TellsMore (state_of self.old).held name.now max }
        ensures answers { AnswersBytes self.old name.now max result self.new }
    {
        let call = FailedCall::new(alloc, false, name)?;
        match self.ask(name) {
            None => {
                self.count_failed(call);
                Err(ShelfFault::Failed)
            }
            Some(bytes) if bytes.len() > max => {
                self.count_taken(max as u64 + 1);
                Err(ShelfFault::TooLong)
            }
            Some(bytes) => {
                let copy = bytes.to_vec(alloc)?;
                self.count_taken(copy.len() as u64);
                Ok(copy)
            }
        }
    }

    fn records(&mut self, alloc: Global, name: &str, max: usize) -> Result<RawTable, ShelfFault>
        ensures goes { Goes (state_of self.old) (state_of self.new) }
        ensures told { IfOk result (λ table. TellsRecords (state_of self.old).held name.now max
            table) }
        ensures failed { IsErrOf result ShelfFault.Failed
            → FailsAt (state_of self.old) (state_of self.new) (true, name.now) }
        ensures no_fault { (IsErrOf result ShelfFault.Failed → ⊥)
            → NoFault (state_of self.old) (state_of self.new) }
        ensures too_long { IsErrOf result ShelfFault.TooLong
            → RoseBy (max + 1) (state_of self.old).taken (state_of self.new).taken }
        ensures told_too_long { IsErrOf result ShelfFault.TooLong
            → TellsMore (state_of self.old).held name.now max }
        ensures answers { AnswersRecords self.old name.now max result self.new }
    {
        let call = FailedCall::new(alloc, true, name)?;
        match self.ask(name) {
            None => {
                self.count_failed(call);
                Err(ShelfFault::Failed)
            }
            Some(text) if text.len() > max => {
                self.count_taken(max as u64 + 1);
                Err(ShelfFault::TooLong)
            }
            Some(text) => {
                let count = text.len() as u64;
                match read_table(alloc, text) {
                    Ok(table) => {
                        self.count_taken(count);
                        Ok(table)
                    }
                    Err(RecordsFault::Refused) => {
                        self.count_failed(call);
                        Err(ShelfFault::Failed)
                    }
                    Err(RecordsFault::Memory) => Err(ShelfFault::Memory),
                }
            }
        }
    }
}
