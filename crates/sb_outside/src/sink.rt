// A sink of bytes.
ghost use Rattle.std.specs.Prelude.{◌≡◌, ◌≤◌, OnOk, OnErr};
ghost use Rattle.sb_outside.specs.Counts.{Rose, RoseAtMost};
ghost use Rattle.sb_outside.specs.Sink.{SinkState, Adds, AddsPrefix};

use crate::SinkFault;

/// Where a program writes its output.
///
/// A sink may tell what it has taken, as one in memory does; a real stream is a sink that doesn't.
/// Its count of faults stays at 2^64 - 1 once it is there.
pub trait Sink {
    /// What it has taken, where it tells, and what it counts.
    ghost state: { Self → SinkState };

    /// Adds a piece at the end. It takes no memory.
    fn put(&mut self, piece: &[u8]) -> Result<(), SinkFault>
        ensures puts { RoseAtMost 1 (state self.old).puts (state self.new).puts }
        ensures added { OnOk result (Adds (state self.old).taken piece.now (state self.new).taken) }
        ensures no_fault { OnOk result ((state self.new).faults ≡ (state self.old).faults) }
        ensures part { OnErr result (AddsPrefix (state self.old).taken piece.now
            (state self.new).taken) }
        ensures failed { OnErr result (Rose (state self.old).faults (state self.new).faults) }
        ensures kept { (state self.old).faults ≤ (state self.new).faults };
}
