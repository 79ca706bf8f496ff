ghost use Rattle.std.specs.Prelude.{◌≡◌, ◌≤◌, ◌↔◌, map, None, string_bytes};
ghost use Rattle.ila_top.specs.Commands.{asked};
ghost use Rattle.ila_top.specs.Outside.{outside_of, IsLater};
ghost use Rattle.ila_top.specs.Answers.{Answers, IsAnswered, Comes, IsComplete};
ghost use Rattle.ila_top.specs.declared.status.Status.TheVariants as status;

use crate::ending::{plain, report};
use crate::form::{Command, command_of};
use crate::laws::sim_is_exact;
use crate::sim::sim;
use crate::status::{Ended, Status};
use ila_base::{Shelf, Sink, Source};
use std::alloc::Global;

// Does what the words say, and tells how it ended.
fn answer<H: Shelf, S: Source, K: Sink>(
    alloc: Global,
    words: &[String],
    shelf: &mut H,
    stimulus: &mut S,
    trace: &mut K,
) -> Ended
    ensures answers { Answers (asked (map string_bytes words.now))
        (outside_of H.Shelf S.Source K.Sink shelf.old stimulus.old trace.old)
        (outside_of H.Shelf S.Source K.Sink shelf.new stimulus.new trace.new)
        result }
    ensures later { IsLater
        (outside_of H.Shelf S.Source K.Sink shelf.old stimulus.old trace.old)
        (outside_of H.Shelf S.Source K.Sink shelf.new stimulus.new trace.new) }
{
    match command_of(words) {
        Command::Sim(words) => sim(alloc, &words, shelf, stimulus, trace),
        Command::Usage => plain(Status::Usage),
    }
}

/// Does what the words say, which are those of the command line behind the program's name: `sim
/// NETLIST TOP CLOCK` simulates a netlist over the stimulus and writes its outputs to the trace. For
/// each status but Done a line goes to the error sink, whose faults change no status.
pub fn ila<H: Shelf, S: Source, K: Sink, E: Sink>(
    alloc: Global,
    words: &[String],
    shelf: &mut H,
    stimulus: &mut S,
    trace: &mut K,
    errors: &mut E,
) -> Status
    // Each answer comes only with its cause and leaves what its command says; its line was written, whole where the error sink has no fault.
    ensures answers { IsAnswered (asked (map string_bytes words.now))
        (outside_of H.Shelf S.Source K.Sink shelf.old stimulus.old trace.old)
        (outside_of H.Shelf S.Source K.Sink shelf.new stimulus.new trace.new)
        (E.written errors.old) (E.written errors.new) (E.faults errors.old) (E.faults errors.new) result }
    // No count of faults falls.
    ensures later { IsLater
        (outside_of H.Shelf S.Source K.Sink shelf.old stimulus.old trace.old)
        (outside_of H.Shelf S.Source K.Sink shelf.new stimulus.new trace.new) }
    ensures errors_later { E.faults errors.old ≤ E.faults errors.new }
    // These follow from the first: Usage comes exactly where the words are of no command;
    ensures usage { (result ≡ status.Usage) ↔ (asked (map string_bytes words.now) ≡ None) }
    // where files and stimulus are told, the answer whose sentence holds comes, but for a fault or want of memory;
    ensures comes { Comes (asked (map string_bytes words.now))
        (outside_of H.Shelf S.Source K.Sink shelf.old stimulus.old trace.old) result }
    // and where no sentence of a refusal holds and no count has risen, it is done, or memory wasn't found.
    ensures complete { IsComplete (asked (map string_bytes words.now))
        (outside_of H.Shelf S.Source K.Sink shelf.old stimulus.old trace.old)
        (outside_of H.Shelf S.Source K.Sink shelf.new stimulus.new trace.new) result }
{
    sim_is_exact();
    let ended = answer(alloc, words, shelf, stimulus, trace);
    report(errors, ended)
}
