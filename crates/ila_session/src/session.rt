ghost use Rattle.std.specs.Prelude.{◌≡◌, ◌≢◌, ℕ, ◌+◌, ◌≤◌, ◌++◌, ◌∷◌, [], Bool, List, length, Ok, Err, OnErr, OnOk, IsOk, Some};
ghost use Rattle.std.specs.Io.KnownBytes.{IsAtEnd};
ghost use Rattle.ila_base.specs.Faults.{Rose, Writes};
ghost use Rattle.ila_base.specs.declared.refusal.StimRefusal.{StimRefusal};
ghost use Rattle.net_core.specs.Netlist.{input_nets};
ghost use Rattle.net_core.specs.Run.{StandsFor, SameBits};
ghost use Rattle.stim_read.specs.Reading.{rest};
ghost use Rattle.stim_read.specs.Streams.{IsDrained};
ghost use Rattle.ila_session.specs.declared.fault.SessionFault.TheVariants as fault;
ghost use Rattle.ila_session.specs.Shown.{session_of, ShowedRows, ReadsRows, ReadsOnlyPart, IsRefusedAt, ShowsRun, ShowsRunFront, Ends};

use crate::clock_text::ClockText;
use crate::fault::SessionFault;
use crate::outputs::Outputs;
use crate::plan::header_line;
use ila_base::{Failed, Sink, Source, write_all};
use net_core::{Flat, Machine};
use std::alloc::Global;
use stim_read::{Stim, StimFault};

// Takes a clock with these inputs, and writes its text.
fn show_clock<M: Machine, K: Sink, T: ClockText>(
    machine: &mut M,
    inputs: &[bool],
    text: &mut T,
    trace: &mut K,
) -> Result<(), Failed>
    requires inputs { length inputs.now ≡ length (input_nets (M.netlist machine.old)) }
    requires serves { T.serves text.old (M.netlist machine.old) }
    ensures same { M.netlist machine.new ≡ M.netlist machine.old }
    ensures stands { (rows : List (List Bool))
        → StandsFor (M.netlist machine.old) (M.bit machine.old) (M.content machine.old) rows
        → StandsFor (M.netlist machine.old) (M.bit machine.new) (M.content machine.new)
        (rows ++ inputs.now ∷ []) }
    ensures text { (T.text text.new ≡ T.text text.old) × T.serves text.new (M.netlist machine.old) }
    ensures bytes { (bit : ℕ → ℕ → Bool) (t : ℕ) → T.follows text.old bit t
        → SameBits (M.netlist machine.old) (M.bit machine.new) (bit t)
        → Writes (K.written trace.old) (K.written trace.new) result (T.text text.old bit t) }
    ensures next { OnOk result ((bit : ℕ → ℕ → Bool) (t : ℕ) → T.follows text.old bit t
        → SameBits (M.netlist machine.old) (M.bit machine.new) (bit t)
        → T.follows text.new bit (t + 1)) }
    ensures later { K.faults trace.old ≤ K.faults trace.new }
    ensures cause { OnErr result (Rose (K.faults trace.old) (K.faults trace.new)) }
{
    machine.step(inputs);
    text.write(machine, trace)
}

// Simulates the rows of a stimulus one after the other, until there is none or a call fails, and
// writes the text of each clock before it takes the next row.
fn show_clocks<M: Machine, S: Source, K: Sink, T: ClockText>(
    machine: &mut M,
    text: &mut T,
    stim: &mut Stim,
    source: &mut S,
    trace: &mut K,
) -> Result<u64, SessionFault>
    requires size { length stim.old.bits ≡ length (input_nets (M.netlist machine.old)) }
    requires fresh { StandsFor (M.netlist machine.old) (M.bit machine.old)
        (M.content machine.old) [] }
    requires serves { T.serves text.old (M.netlist machine.old) }
    requires follows { (bit : ℕ → ℕ → Bool) → T.follows text.old bit 0 }
    ensures same { M.netlist machine.new ≡ M.netlist machine.old }
    ensures ends { Ends (record { head = []; clock = T.text text.old }) (M.netlist machine.old)
        (session_of M.Machine S.Source K.Sink machine.old stim.old source.old trace.old)
        (session_of M.Machine S.Source K.Sink machine.new stim.new source.new trace.new) result }
    ensures again { (why : StimRefusal) → stim.old.refused ≡ Some why
        → (result ≡ Err (fault.Stimulus why)) × (machine.new ≡ machine.old)
        × (stim.new ≡ stim.old) × (source.new ≡ source.old) × (trace.new ≡ trace.old) }
    ensures drained { IsOk result → IsDrained stim.old.ended (S.left source.old)
        → IsAtEnd (S.left source.new) }
    ensures read_later { S.faults source.old ≤ S.faults source.new }
    ensures write_later { K.faults trace.old ≤ K.faults trace.new }
{
    let mut clocks: u64 = 0;
    loop {
        match stim.next(source) {
            Ok(true) => {}
            Ok(false) => return Ok(clocks),
            Err(StimFault::Refused(why)) => return Err(SessionFault::Stimulus(why)),
            Err(StimFault::ReadFault) => return Err(SessionFault::ReadFault),
        }
        match show_clock(machine, stim.bits(), text, trace) {
            Ok(()) => clocks += 1,
            Err(Failed) => return Err(SessionFault::WriteFault),
        }
    }
}

/// Simulates the rows of a stimulus, which has given none, and appends a text of the run to the
/// trace: these first bytes, and the text of each clock. Gives the number of clocks. It takes no
/// memory. The text of a clock is written before the next row is read.
pub fn show_text<M: Machine, S: Source, K: Sink, T: ClockText>(
    machine: &mut M,
    head: &[u8],
    text: &mut T,
    stim: &mut Stim,
    source: &mut S,
    trace: &mut K,
) -> Result<u64, SessionFault>
    requires size { length stim.old.bits ≡ length (input_nets (M.netlist machine.old)) }
    requires fresh { StandsFor (M.netlist machine.old) (M.bit machine.old)
        (M.content machine.old) [] }
    requires serves { T.serves text.old (M.netlist machine.old) }
    requires follows { (bit : ℕ → ℕ → Bool) → T.follows text.old bit 0 }
    ensures same { M.netlist machine.new ≡ M.netlist machine.old }
    ensures ends { Ends (record { head = head.now; clock = T.text text.old })
        (M.netlist machine.old)
        (session_of M.Machine S.Source K.Sink machine.old stim.old source.old trace.old)
        (session_of M.Machine S.Source K.Sink machine.new stim.new source.new trace.new) result }
    ensures again { (why : StimRefusal) → stim.old.refused ≡ Some why
        → (machine.new ≡ machine.old) × (stim.new ≡ stim.old) × (source.new ≡ source.old)
        × (result ≢ Err fault.WriteFault → result ≡ Err (fault.Stimulus why)) }
    ensures drained { IsOk result → IsDrained stim.old.ended (S.left source.old)
        → IsAtEnd (S.left source.new) }
    ensures read_later { S.faults source.old ≤ S.faults source.new }
    ensures write_later { K.faults trace.old ≤ K.faults trace.new }
{
    write_all(trace, head)?;
    show_clocks(machine, text, stim, source, trace)
}

/// Simulates the rows of a stimulus, which has given none, and appends the outputs text to the
/// trace: a line with the names of the output ports, and for each clock a line with their values.
/// Gives the number of clocks. It takes its memory before it writes and before it reads. The line
/// of a clock is written before the next row is read.
pub fn show<M: Machine, S: Source, K: Sink>(
    alloc: Global,
    machine: &mut M,
    flat: &Flat,
    stim: &mut Stim,
    source: &mut S,
    trace: &mut K,
) -> Result<u64, SessionFault>
    requires netlist { M.netlist machine.old ≡ flat.now }
    requires fresh { StandsFor flat.now (M.bit machine.old) (M.content machine.old) [] }
    requires size { length stim.old.bits ≡ length (input_nets flat.now) }
    ensures same { M.netlist machine.new ≡ M.netlist machine.old }
    ensures done { (n : ℕ) → result ≡ Ok n → (rows : List (List Bool)) × (n ≡ length rows)
        × IsAtEnd (rest stim.new (S.left source.new))
        × ShowedRows flat.now stim.old (S.left source.old) rows (M.bit machine.new)
        (M.content machine.new) stim.new (S.left source.new)
        × ShowsRun flat.now rows (K.written trace.old) (K.written trace.new) }
    ensures refused { (why : StimRefusal) → result ≡ Err (fault.Stimulus why)
        → (rows : List (List Bool))
        × IsRefusedAt stim.old (S.left source.old) rows why (S.left source.new)
        × StandsFor flat.now (M.bit machine.new) (M.content machine.new) rows
        × ShowsRun flat.now rows (K.written trace.old) (K.written trace.new) }
    ensures read_fault { result ≡ Err fault.ReadFault → (rows : List (List Bool))
        × Rose (S.faults source.old) (S.faults source.new) × ReadsOnlyPart stim.new
        × ShowedRows flat.now stim.old (S.left source.old) rows (M.bit machine.new)
        (M.content machine.new) stim.new (S.left source.new)
        × ShowsRun flat.now rows (K.written trace.old) (K.written trace.new) }
    ensures write_fault { result ≡ Err fault.WriteFault → (rows : List (List Bool))
        × Rose (K.faults trace.old) (K.faults trace.new)
        × ShowedRows flat.now stim.old (S.left source.old) rows (M.bit machine.new)
        (M.content machine.new) stim.new (S.left source.new)
        × ShowsRunFront flat.now rows (K.written trace.old) (K.written trace.new)
        × ReadsRows stim.old (S.left source.old) rows stim.new (S.left source.new) }
    ensures again { (why : StimRefusal) → stim.old.refused ≡ Some why
        → (machine.new ≡ machine.old) × (stim.new ≡ stim.old) × (source.new ≡ source.old)
        × (result ≢ Err fault.NoMemory → result ≢ Err fault.WriteFault
        → result ≡ Err (fault.Stimulus why)) }
    ensures memory { result ≡ Err fault.NoMemory → (machine.new ≡ machine.old)
        × (stim.new ≡ stim.old) × (source.new ≡ source.old) × (trace.new ≡ trace.old) }
    ensures drained { IsOk result → IsDrained stim.old.ended (S.left source.old)
        → IsAtEnd (S.left source.new) }
    ensures read_later { S.faults source.old ≤ S.faults source.new }
    ensures write_later { K.faults trace.old ≤ K.faults trace.new }
{
    let header = header_line(alloc, flat)?;
    let mut outputs = Outputs::new(alloc, flat)?;
    show_text(machine, &header, &mut outputs, stim, source, trace)
}
