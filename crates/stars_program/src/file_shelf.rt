// The files of the system as a shelf, which tells no content.
ghost use Rattle.std.specs.Prelude.{◌≡◌, ◌≤◌, ◌+◌, length, Some, None, IfOk, IsErrOf};
ghost use Rattle.sb_outside.specs.Counts.{Rose, RoseBy, RoseAtMost};
ghost use Rattle.sb_outside.specs.Shelf.{TellsRecords};

use sb_outside::{FailedCall, RawTable, Shelf, ShelfFault, read_table};
use std::alloc::Global;
use std::fs;
use std::io::{self, ErrorKind, Read};
use std::rt::Files;

/// The files of the system, by their paths.
#[derive(Drop)]
pub struct FileShelf<'a, R: Files> {
    files: &'a R,
    faults: u64,
    calls: u64,
    taken: u64,
    last: Option<FailedCall>,
}

impl<'a, R: Files> FileShelf<'a, R> {
    /// A shelf of these files, of which none was asked for yet.
    pub fn new(files: &'a R) -> Self
        ensures counts { (result.faults ≡ 0) × (result.calls ≡ 0) × (result.taken ≡ 0) }
        ensures last { result.last ≡ None }
    {
        FileShelf {
            files,
            faults: 0,
            calls: 0,
            taken: 0,
            last: None,
        }
    }

    // The bytes of a file, where they are at most `max`, counted as a call that takes them. A fault
    // isn't counted.
    fn take(&mut self, alloc: Global, name: &str, max: usize) -> Result<Vec<u8>, ShelfFault>
        ensures calls { RoseAtMost 1 self.old.calls self.new.calls }
        ensures faults { (self.new.faults ≡ self.old.faults) × (self.new.last ≡ self.old.last) }
        ensures taken { self.old.taken ≤ self.new.taken }
        ensures within { IfOk result (λ bytes. length bytes.items ≤ max) }
        ensures too_long { IsErrOf result ShelfFault.TooLong
            → RoseBy (max + 1) self.old.taken self.new.taken }
    {
        self.calls = self.calls.saturating_add(1);
        let bytes = match read_front(self.files, alloc, name, max) {
            Ok(bytes) => bytes,
            Err(error) if error.kind() == ErrorKind::OutOfMemory => return Err(ShelfFault::Memory),
            Err(_) => return Err(ShelfFault::Failed),
        };
        self.taken = self.taken.saturating_add(bytes.len() as u64);
        if bytes.len() > max {
            return Err(ShelfFault::TooLong);
        }
        Ok(bytes)
    }

    // The records of a file, where its bytes are at most `max`, counted in the same way.
    fn take_records(
        &mut self,
        alloc: Global,
        name: &str,
        max: usize,
    ) -> Result<RawTable, ShelfFault>
        ensures calls { RoseAtMost 1 self.old.calls self.new.calls }
        ensures faults { (self.new.faults ≡ self.old.faults) × (self.new.last ≡ self.old.last) }
        ensures taken { self.old.taken ≤ self.new.taken }
        ensures within { IfOk result (λ table. TellsRecords None name.now max table) }
        ensures too_long { IsErrOf result ShelfFault.TooLong
            → RoseBy (max + 1) self.old.taken self.new.taken }
    {
        let bytes = self.take(alloc, name, max)?;
        Ok(read_table(alloc, bytes.as_slice())?)
    }

    // Counts a fault, and keeps the call.
    fn count_failed(&mut self, call: FailedCall)
        ensures counts { (self.new.calls ≡ self.old.calls) × (self.new.taken ≡ self.old.taken) }
        ensures faults { (self.old.faults ≤ self.new.faults)
            × Rose self.old.faults self.new.faults }
        ensures kept { self.new.last ≡ Some call }
    {
        self.faults = self.faults.saturating_add(1);
        self.last = Some(call);
    }
}

// All bytes of a file, or its first `max + 1` where it has so many.
fn read_front<R: Files>(files: &R, alloc: Global, name: &str, max: usize) -> io::Result<Vec<u8>> {
    let file = fs::open(files, name)?;
    let mut bytes = Vec::new(alloc);
    file.take((max as u64).saturating_add(1))
        .read_to_end(&mut bytes)?;
    Ok(bytes)
}

impl<R: Files> Shelf for FileShelf<'_, R> {
    ghost state = { λ s. record { held = None; faults = s.faults; calls = s.calls; taken = s.taken; last_failed = s.last } };

    fn bytes(&mut self, alloc: Global, name: &str, max: usize) -> Result<Vec<u8>, ShelfFault> {
        let call = FailedCall::new(alloc, false, name)?;
        match self.take(alloc, name, max) {
            Err(ShelfFault::Failed) => {
                self.count_failed(call);
                Err(ShelfFault::Failed)
            }
            answer => answer,
        }
    }

    fn records(&mut self, alloc: Global, name: &str, max: usize) -> Result<RawTable, ShelfFault> {
        let call = FailedCall::new(alloc, true, name)?;
        match self.take_records(alloc, name, max) {
            Err(ShelfFault::Failed) => {
                self.count_failed(call);
                Err(ShelfFault::Failed)
            }
            answer => answer,
        }
    }
}

#[cfg(test)]
mod tests {
    use super::*;
    use std::test::Fail;

    #[test]
    fn reads_files(rt: HostRuntime) -> Result<(), Fail> {
        let alloc = rt.alloc();
        fs::write(&rt, "five.txt", b"12345")?;
        let mut shelf = FileShelf::new(&rt);
        let rows = [
            ("five.txt", 5, Ok("12345")),
            ("five.txt", 4, Err(ShelfFault::TooLong)),
            ("five.txt", usize::MAX, Ok("12345")),
            ("none.txt", 5, Err(ShelfFault::Failed)),
            (".", 5, Err(ShelfFault::Failed)),
        ];
        for (name, max, wanted) in rows {
            match (shelf.bytes(alloc, name, max), wanted) {
                (Ok(bytes), Ok(text)) => assert_eq!(rt; bytes.as_slice(), text.as_bytes()),
                (Err(fault), Err(other)) => assert_eq!(rt; fault, other, "{name} to {max}"),
                _ => assert!(rt; false, "{name} to {max}"),
            }
        }
        fs::remove_file(&rt, "five.txt")?;
        assert_eq!(rt; (shelf.calls, shelf.faults, shelf.taken), (5, 2, 15));
        let last = shelf.last.ok_or("no failed call")?;
        assert!(rt; !last.is_records());
        assert_eq!(rt; last.name(), ".");
        Ok(())
    }

    #[test]
    fn reads_tables(rt: HostRuntime) -> Result<(), Fail> {
        let alloc = rt.alloc();
        fs::write(&rt, "three.csv", b"\xEF\xBB\xBFa,b\n\"x,y\"\r\n1,,3\n")?;
        let mut shelf = FileShelf::new(&rt);
        let table = shelf.records(alloc, "three.csv", 19);
        let too_long = shelf.records(alloc, "three.csv", 18).is_err();
        fs::remove_file(&rt, "three.csv")?;
        let missing = shelf.records(alloc, "three.csv", 19).is_err();
        assert_eq!(rt; (too_long, missing), (true, true));
        assert_eq!(rt; (shelf.calls, shelf.faults, shelf.taken), (3, 1, 38));
        let last = shelf.last.ok_or("no failed call")?;
        assert!(rt; last.is_records());
        assert_eq!(rt; last.name(), "three.csv");

        let Ok(table) = table else {
            assert!(rt; false, "no table");
            return Ok(());
        };
        let mut seen = Vec::new(alloc);
        for record_no in 0..table.len() {
            for field_no in 0..table.fields(record_no) {
                seen.push(b'[')?;
                seen.extend_from_slice(table.field(record_no, field_no))?;
                seen.push(b']')?;
            }
            seen.push(b';')?;
        }
        assert_eq!(rt; seen.as_slice(), b"[a][b];[x,y];[1][][3];".as_slice());
        Ok(())
    }
}
