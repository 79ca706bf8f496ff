//! The command `sim`: its stages, and then the simulation.

ghost use Rattle.std.specs.Prelude.{◌≡◌, ◌≤◌, IfOk, IfErr};
ghost use Rattle.ila_base.specs.Files.{KeepsFiles};
ghost use Rattle.net_levels.specs.Levels.{AreLevels};
ghost use Rattle.ila_top.specs.Outside.{outside_of, IsLater};
ghost use Rattle.ila_top.specs.Reading.{Topped, status_of};
ghost use Rattle.ila_top.specs.Stage.{Halts, plain};
ghost use Rattle.ila_top.specs.Meaning.{Ends};
ghost use Rattle.ila_top.specs.Simulating.{sim, sim_stages, HasFlat};
ghost use Rattle.ila_top.specs.Words.{words_of};

use crate::ending::plain;
use crate::form::Sim;
use crate::load::{FileKind, load};
use crate::netlist::read_netlist;
use crate::simulate::simulate;
use crate::status::{Ended, Status};
use ila_base::{NetStop, Shelf, Sink, Source};
use net_core::Flat;
use net_levels::types::Levels;
use std::alloc::Global;

// How a command ends where a netlist is refused, or memory isn't found.
fn refused(stop: NetStop) -> Ended
    ensures { result ≡ plain (status_of stop) }
{
    match stop {
        NetStop::Refused(fault) => plain(Status::Netlist(fault.refusal, fault.place)),
        NetStop::NoMemory => plain(Status::NoMemory),
    }
}

// The flat netlist that the words name, with its level numbers.
fn design_of<H: Shelf>(
    alloc: Global,
    words: &Sim<'_>,
    shelf: &mut H,
) -> Result<(Flat, Levels), Ended>
    ensures given { IfOk result (λ read. (job : Topped) × (sim_stages (words_of words.now)).gives (H.files shelf.old) job × HasFlat job read.0) }
    ensures levels { IfOk result (λ read. AreLevels read.0 read.1) }
    ensures halted { IfErr result (Halts ((sim_stages (words_of words.now)).refuses (H.files shelf.old)) (H.faults shelf.old) (H.faults shelf.new)) }
    ensures kept { KeepsFiles (H.files shelf.old) (H.files shelf.new) }
    ensures later { H.faults shelf.old ≤ H.faults shelf.new }
{
    let bytes = match load(alloc, shelf, FileKind::Netlist, b"", words.netlist) {
        Ok(bytes) => bytes,
        Err(ended) => return Err(ended),
    };
    match read_netlist(alloc, &bytes, words.top, words.clock) {
        Ok(read) => Ok(read),
        Err(stop) => Err(refused(stop)),
    }
}

/// Simulates the netlist of the words over the stimulus, and writes the outputs text to the trace.
pub fn sim<H: Shelf, S: Source, K: Sink>(
    alloc: Global,
    words: &Sim<'_>,
    shelf: &mut H,
    stimulus: &mut S,
    trace: &mut K,
) -> Ended
    ensures ends { Ends (sim (words_of words.now))
        (outside_of H.Shelf S.Source K.Sink shelf.old stimulus.old trace.old)
        (outside_of H.Shelf S.Source K.Sink shelf.new stimulus.new trace.new)
        result }
    ensures later { IsLater
        (outside_of H.Shelf S.Source K.Sink shelf.old stimulus.old trace.old)
        (outside_of H.Shelf S.Source K.Sink shelf.new stimulus.new trace.new) }
{
    let (flat, levels) = match design_of(alloc, words, shelf) {
        Ok(read) => read,
        Err(ended) => return ended,
    };
    plain(simulate(alloc, &flat, &levels, stimulus, trace))
}
