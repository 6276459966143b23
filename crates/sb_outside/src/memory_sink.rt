// A sink in memory, which tells what it has taken.
ghost use Rattle.std.specs.Prelude.{◌≡◌, ◌≤◌, ◌+◌, ◌-◌, ◌^◌, ◌++◌, ℕ, [], min, length, take, None, Some, IfOk, OnOk, OnErr, MatchOption};
ghost use Rattle.sb_outside.specs.Counts.{Rose, RoseAtMost};
ghost use Rattle.sb_outside.specs.Sink.{Adds, AddsPrefix};
ghost use Rattle.sb_outside.specs.Named.{one_more};
ghost use Rattle.sb_outside.specs.MemorySink.{state_of, listed, cut, cut_of};

use crate::{Sink, SinkFault};
use std::alloc::{AllocError, Global};
use std::marker::Model;

/// Output in memory, for tests. It can be told to fail.
#[derive(Drop)]
pub struct MemorySink {
    taken: Vec<u8>,
    failing: Vec<(u32, usize)>,
    calls: u32,
    room: usize,
    faults: u64,
}

impl Model for MemorySink {
    ghost use Rattle.std.specs.Prelude.{◌≤◌, length, vec_capacity};
    ghost use Rattle.sb_outside.specs.MemorySink.{SinkContents};

    ghost Value = { SinkContents };

    ghost view = { λ s. record {
      taken = s.taken.items;
      failing = s.failing.items;
      calls = s.calls;
      room = s.room;
      faults = s.faults;
    } };

    ghost invariant = { λ s. (length s.taken.items ≤ s.room) × (s.room ≤ vec_capacity s.taken) };
}

impl MemorySink {
    /// An empty sink with room for so many bytes, which it reserves.
    ///
    /// An entry `(number, keep)` of `failing` makes the call of this number, from 1, fail after
    /// `keep` bytes of its piece, or after as many as there are and as fit. Of two entries of one
    /// number the first holds.
    pub fn new(
        alloc: Global,
        room: usize,
        failing: Vec<(u32, usize)>,
    ) -> Result<MemorySink, AllocError>
        ensures { IfOk result (λ sink. sink ≡ record
            { taken = []; failing = failing.items; calls = 0; room = room; faults = 0 }) }
    {
        let taken = Vec::with_capacity(alloc, room)?;
        Ok(MemorySink {
            taken,
            failing,
            calls: 0,
            room,
            faults: 0,
        })
    }

    /// What it has taken.
    pub fn taken(&self) -> &[u8]
        ensures { result.now ≡ self.now.taken }
    {
        self.taken.as_slice()
    }

    /// How many calls there were. It stays at its last value, and each call past that number fails.
    pub fn calls(&self) -> u32
        ensures { result ≡ self.now.calls }
    {
        self.calls
    }

    /// How many calls failed.
    pub fn faults(&self) -> u64
        ensures { result ≡ self.now.faults }
    {
        self.faults
    }
}

// What the first entry of this number keeps.
fn find(failing: &[(u32, usize)], number: u32) -> Option<usize>
    ensures { result ≡ listed failing.now number }
{
    failing
        .iter()
        .find(|entry| entry.0 == number)
        .map(|entry| entry.1)
}

// How much of a piece the call after so many adds before it fails; none: all of it, and it
// succeeds.
fn cut_at(failing: &[(u32, usize)], calls: u32, size: usize, left: usize) -> Option<usize>
    ensures value { result ≡ cut failing.now calls size left }
    ensures within { MatchOption result (size ≤ left) (λ count. (count ≤ size) × (count ≤ left)) }
{
    match calls.checked_add(1) {
        None => Some(0),
        Some(number) => match find(failing, number) {
            Some(keep) => Some(keep.min(size).min(left)),
            None if size <= left => None,
            None => Some(left),
        },
    }
}

impl Sink for MemorySink {
    ghost state = { state_of };

    fn put(&mut self, piece: &[u8]) -> Result<(), SinkFault>
        ensures puts { RoseAtMost 1 (state_of self.old).puts (state_of self.new).puts }
        ensures added { OnOk result (Adds (state_of self.old).taken piece.now
            (state_of self.new).taken) }
        ensures no_fault { OnOk result ((state_of self.new).faults ≡ (state_of self.old).faults) }
        ensures part { OnErr result (AddsPrefix (state_of self.old).taken piece.now
            (state_of self.new).taken) }
        ensures failed { OnErr result (Rose (state_of self.old).faults (state_of self.new).faults) }
        ensures kept { (state_of self.old).faults ≤ (state_of self.new).faults }

        // What each answer comes from, and what becomes of the sink.
        ensures whole { OnOk result ((cut_of self.old (length piece.now) ≡ None)
            × (self.new ≡ record self.old {
              taken = self.old.taken
                  ++ piece.now;
              calls = one_more self.old.calls;
            })) }
        ensures cut_short { OnErr result ((count : ℕ)
            × (cut_of self.old (length piece.now) ≡ Some count)
            × (self.new ≡ record self.old {
              taken = self.old.taken
                  ++ take count piece.now;
              calls = one_more self.old.calls;
              faults = min
                  (self.old.faults + 1) (2 ^ 64 - 1);
            })) }
    {
        let left = self.room - self.taken.len();
        let count = cut_at(&self.failing, self.calls, piece.len(), left);
        self.calls = self.calls.saturating_add(1);
        match count {
            None => {
                self.taken.extend_from_slice(piece).unwrap();
                Ok(())
            }
            Some(count) => {
                self.taken.extend_from_slice(&piece[..count]).unwrap();
                self.faults = self.faults.saturating_add(1);
                Err(SinkFault::Failed)
            }
        }
    }
}
