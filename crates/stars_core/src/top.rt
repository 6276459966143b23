// The top call.
ghost use Rattle.std.specs.Prelude.{◌≡◌, ◌↔◌, ◌⊎◌, ◌<◌, ◌≤◌, None, length, OnOk, OnErr};
ghost use Rattle.std.specs.List.{concat};
ghost use Rattle.sb_outside.specs.Counts.{Rose, RoseAtMost};
ghost use Rattle.sb_outside.specs.Shelf.{GoesBy};
ghost use Rattle.sb_outside.specs.Sink.{Adds, AddsPrefix};
ghost use Rattle.stars_core.specs.CommandLine.{bytes_of, command_of};
ghost use Rattle.stars_core.specs.Pieces.{pieces_of};
ghost use Rattle.stars_core.specs.Bounds.{calls_of, puts_of};
ghost use Rattle.stars_core.specs.Answers.{Answered, LinePut};
ghost use Rattle.stars_core.specs.Told.{Complete, GenComplete, RefusedExactly, TableRefusedExactly, RunCalls, RunPuts};

use crate::compose::compose;
use crate::{Ending, Pieces, Status};
use sb_outside::{Shelf, Sink, SinkFault};
use std::alloc::Global;

fn tell<E: Sink>(err: &mut E, line: &str)
    ensures told { LinePut (E.state err.old) (E.state err.new) line.now }
    ensures kept { (E.state err.old).faults ≤ (E.state err.new).faults }
{
    match err.put(line.as_bytes()) {
        Ok(()) => {}
        Err(SinkFault::Failed) => {}
    }
}

// Puts the pieces, one after the other, up to the first that fails.
fn emit<O: Sink>(out: &mut O, pieces: &Pieces) -> Result<(), SinkFault>
    ensures puts { RoseAtMost (length (pieces_of pieces.now)) (O.state out.old).puts
        (O.state out.new).puts }
    ensures added { OnOk result (Adds (O.state out.old).taken (concat (pieces_of pieces.now))
        (O.state out.new).taken) }
    ensures no_fault { OnOk result ((O.state out.new).faults ≡ (O.state out.old).faults) }
    ensures part { OnErr result (AddsPrefix (O.state out.old).taken (concat (pieces_of pieces.now))
        (O.state out.new).taken) }
    ensures failed { OnErr result (Rose (O.state out.old).faults (O.state out.new).faults) }
    ensures kept { (O.state out.old).faults ≤ (O.state out.new).faults }
{
    out.put(pieces.text.as_slice())?;
    match &pieces.rows {
        Some(rows) => out.put(rows.as_slice()),
        None => Ok(()),
    }
}

/// Does what the words ask, from the shelf to the two sinks.
pub fn stars<S: Shelf, O: Sink, E: Sink>(
    alloc: Global,
    words: &[String],
    shelf: &mut S,
    out: &mut O,
    err: &mut E,
) -> Status
    ensures usage { (result ≡ Status.Usage) ↔ (command_of (bytes_of words.now) ≡ None) }
    ensures answer { Answered result (bytes_of words.now) (S.state shelf.old) (S.state shelf.new)
        (O.state out.old) (O.state out.new) (E.state err.old) (E.state err.new) }
    ensures complete { Complete result (bytes_of words.now) (S.state shelf.old) (S.state shelf.new)
        (O.state out.old) (O.state out.new) }
    ensures generated { GenComplete result (bytes_of words.now) (O.state out.old)
        (O.state out.new) }
    ensures refused { RefusedExactly result (bytes_of words.now) (S.state shelf.old)
        (S.state shelf.new) (E.state err.old) (E.state err.new) }
    ensures table_refused { TableRefusedExactly result (bytes_of words.now) (S.state shelf.old)
        (S.state shelf.new) (E.state err.old) (E.state err.new) }
    ensures shelf { GoesBy (calls_of (bytes_of words.now) (command_of (bytes_of words.now)))
        (S.state shelf.old) (S.state shelf.new) }
    ensures run_calls { RunCalls (bytes_of words.now) (S.state shelf.old) (S.state shelf.new) }
    ensures read_faults { (S.state shelf.old).faults < (S.state shelf.new).faults
        → (result ≡ Status.ReadFault) ⊎ (result ≡ Status.Memory) }
    ensures write_faults { (O.state out.old).faults < (O.state out.new).faults
        → result ≡ Status.WriteFault }
    ensures puts { RoseAtMost (puts_of (command_of (bytes_of words.now))) (O.state out.old).puts
        (O.state out.new).puts }
    ensures run_puts { RunPuts (bytes_of words.now) (S.state shelf.old) (O.state out.old)
        (O.state out.new) }
    ensures lines { RoseAtMost 1 (E.state err.old).puts (E.state err.new).puts }
    ensures kept { ((O.state out.old).faults ≤ (O.state out.new).faults)
        × ((E.state err.old).faults ≤ (E.state err.new).faults) }
{
    match compose(alloc, words, shelf) {
        Ok(pieces) => match emit(out, &pieces) {
            Ok(()) => match pieces.ending {
                Ending::Done => Status::Done,
                Ending::NoPlan => Status::NoPlan,
            },
            Err(SinkFault::Failed) => {
                tell(err, "cannot write\n");
                Status::WriteFault
            }
        },
        Err(refusal) => {
            tell(err, refusal.line());
            refusal.status()
        }
    }
}
