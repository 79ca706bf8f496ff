//! An accepted design simulated over a stimulus.

ghost use Rattle.std.specs.Prelude.{◌≡◌, ◌≤◌, [], length, None, IfOk, IfErr};
ghost use Rattle.net_core.specs.Netlist.{input_nets};
ghost use Rattle.net_core.specs.WellFormed.{IsFlat};
ghost use Rattle.net_levels.specs.Levels.{AreLevels};
ghost use Rattle.stim_read.specs.Ports as ports;
ghost use Rattle.stim_read.specs.Reading.{Begins};
ghost use Rattle.stim_read.specs.Streams.{IsDrained, UsesEnds};
ghost use Rattle.ila_top.specs.Outside.{streams_of};
ghost use Rattle.ila_top.specs.Reading.{Topped};
ghost use Rattle.ila_top.specs.Simulating.{HasFlat, SimStreams, BeginAnswer, ReadsHeader};

use crate::status::Status;
use clock_sim::Plain;
use design_text::{inputs_agree, shows_design};
use ila_base::{Sink, Source};
use ila_session::{SessionFault, show};
use net_core::Flat;
use net_levels::types::Levels;
use std::alloc::Global;
use stim_read::{Stim, StimStop};

// Reads the header of the stimulus.
fn begin<S: Source>(alloc: Global, flat: &Flat, stimulus: &mut S) -> Result<Stim, Status>
    ensures begun { IfOk result (λ stim. Begins (ports.data_inputs flat.now) (S.left stimulus.old) (S.left stimulus.new) stim) }
    ensures size { IfOk result (λ stim. length stim.bits ≡ length (input_nets flat.now)) }
    ensures drained { IfOk result (λ stim. IsDrained stim.ended (S.left stimulus.new)) }
    ensures cause { IfErr result (BeginAnswer (ports.data_inputs flat.now) (S.left stimulus.old) (S.left stimulus.new) (S.faults stimulus.old) (S.faults stimulus.new)) }
    ensures used { IfOk result (λ stim. UsesEnds 1 [] (S.left stimulus.old) stim.unused (S.left stimulus.new)) }
    ensures ahead { ReadsHeader (ports.data_inputs flat.now) (S.left stimulus.old) (S.left stimulus.new) }
    ensures later { S.faults stimulus.old ≤ S.faults stimulus.new }
{
    match Stim::new(alloc, stimulus, flat) {
        Ok(stim) => Ok(stim),
        Err(StimStop::Refused(why)) => Err(Status::Stimulus(why)),
        Err(StimStop::ReadFault) => Err(Status::ReadFault),
        Err(StimStop::NoMemory) => Err(Status::NoMemory),
    }
}

/// Simulates a flat netlist over the stimulus, and writes the outputs text to the trace. All is said of
/// the design whose flat netlist it is.
pub fn simulate<S: Source, K: Sink>(
    alloc: Global,
    flat: &Flat,
    levels: &Levels,
    stimulus: &mut S,
    trace: &mut K,
) -> Status
    requires flat { IsFlat flat.now }
    requires levels { AreLevels flat.now levels.now }
    ensures answers { (job : Topped) → HasFlat job flat.now → SimStreams job
        (streams_of S.Source K.Sink stimulus.old trace.old)
        (streams_of S.Source K.Sink stimulus.new trace.new)
        result }
    ensures read_later { S.faults stimulus.old ≤ S.faults stimulus.new }
    ensures write_later { K.faults trace.old ≤ K.faults trace.new }
{
    inputs_agree();
    shows_design();
    let Ok(mut machine) = Plain::new(alloc, flat, levels) else {
        return Status::NoMemory;
    };
    let mut stim = match begin(alloc, flat, stimulus) {
        Ok(stim) => stim,
        Err(status) => return status,
    };
    match show(alloc, &mut machine, flat, &mut stim, stimulus, trace) {
        Ok(_) => Status::Done,
        Err(SessionFault::Stimulus(why)) => Status::Stimulus(why),
        Err(SessionFault::ReadFault) => Status::ReadFault,
        Err(SessionFault::WriteFault) => Status::WriteFault,
        Err(SessionFault::NoMemory) => Status::NoMemory,
    }
}
