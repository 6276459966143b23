// A stream of the system as a sink, which tells no content.
ghost use Rattle.std.specs.Prelude.{◌≡◌, None};

use sb_outside::{Sink, SinkFault};
use std::io::Write;

/// A stream of the system, such as standard output.
#[derive(Drop)]
pub struct Stream<W: Write> {
    inner: W,
    faults: u64,
    puts: u64,
}

impl<W: Write> Stream<W> {
    /// A sink over this stream, to which nothing was put yet.
    pub fn new(inner: W) -> Self
        ensures { (result.faults ≡ 0) × (result.puts ≡ 0) }
    {
        Stream {
            inner,
            faults: 0,
            puts: 0,
        }
    }
}

impl<W: Write> Sink for Stream<W> {
    ghost state = { λ s. record { taken = None; faults = s.faults; puts = s.puts } };

    fn put(&mut self, piece: &[u8]) -> Result<(), SinkFault> {
        self.puts = self.puts.saturating_add(1);
        match self.inner.write_all(piece) {
            Ok(()) => Ok(()),
            Err(_) => {
                self.faults = self.faults.saturating_add(1);
                Err(SinkFault::Failed)
            }
        }
    }
}

#[cfg(test)]
mod tests {
    use super::*;
    use std::fs;
    use std::test::Fail;

    #[test]
    fn writes_all_or_fails(rt: HostRuntime) -> Result<(), Fail> {
        {
            let mut sink = Stream::new(fs::create(&rt, "stream.txt")?);
            assert_eq!(rt; sink.put(b"one, "), Ok(()));
            assert_eq!(rt; sink.put(b""), Ok(()));
            assert_eq!(rt; sink.put(b"two"), Ok(()));
            assert_eq!(rt; (sink.puts, sink.faults), (3, 0));
        }
        assert_eq!(rt;
            fs::read(&rt, "stream.txt")?.as_slice(),
            b"one, two".as_slice()
        );
        let mut sink = Stream::new(fs::open(&rt, "stream.txt")?);
        fs::remove_file(&rt, "stream.txt")?;
        assert_eq!(rt; sink.put(b"three"), Err(SinkFault::Failed));
        assert_eq!(rt; sink.put(b""), Ok(()));
        assert_eq!(rt; (sink.puts, sink.faults), (2, 1));
        Ok(())
    }
}
