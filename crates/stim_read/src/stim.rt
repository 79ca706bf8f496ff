ghost use Rattle.std.specs.Prelude.{◌≡◌, ◌≢◌, ℕ, ◌+◌, ◌⊎◌, ◌<◌, ◌≤◌, Bool, true, false, [], length, replicate, IfOk, OnOk, Ok, Err, Some, None};
ghost use Rattle.std.specs.Io.KnownBytes.{Keeps, IsAtEnd};
ghost use Rattle.ila_base.specs.Faults.{Rose};
ghost use Rattle.ila_base.specs.declared.refusal.StimRefusal.{StimRefusal};
ghost use Rattle.ila_base.specs.declared.refusal.StimRefusal.TheVariants as refusal;
ghost use Rattle.stim_read.specs.declared.faults.StimFault.TheVariants as fault;
ghost use Rattle.stim_read.specs.declared.faults.StimStop.TheVariants as stop;
ghost use Rattle.net_core.specs.Netlist.{input_nets};
ghost use Rattle.stim_read.specs.Ports.{data_inputs};
ghost use Rattle.stim_read.specs.Stimulus.{IsRow, AreNames, names_of, longest_line};
ghost use Rattle.stim_read.specs.Words.{AllFit, AllApart};
ghost use Rattle.stim_read.specs.Reading.{Reading, rest, most_rows, TakesRow, Refuses, RefusesLine, IsSomeRow, Begins, HasNoHeader};
ghost use Rattle.stim_read.specs.Streams.{Unbroken, ReadsPart, ReadsAhead, UsesEnds, IsDrained};

use crate::faults::{StimFault, StimStop};
use crate::header::header;
use crate::inputs::{DataInput, Field};
use crate::layout::{fields_in_order, room};
use crate::line_reader::{LineEnd, LineReader};
use crate::ports::data_inputs;
use crate::row::read_row;
use ila_base::limits::LAST_ROW;
use ila_base::{NoMemory, Source, StimRefusal};
use net_core::Flat;
use std::alloc::Global;
use std::marker::Model;
use std::mem;

/// A stimulus that is being read from a source, row by row. The same source is handed in at each
/// call.
#[derive(Drop)]
pub struct Stim {
    lines: LineReader,
    fields: Vec<Field>,
    bits: Vec<bool>,
    // The bits of a row while its line is read.
    spare: Vec<bool>,
    taken: u32,
    refused: Option<StimRefusal>,
}

impl Model for Stim {
    ghost use Rattle.std.specs.Prelude.{◌≡◌, ◌++◌, ◌+◌, ◌≤◌, length, sum_by};
    ghost use Rattle.stim_read.specs.Stimulus.{digits_of};
    ghost use Rattle.stim_read.specs.Words.{AllFit, AllApart};
    ghost use Rattle.stim_read.specs.Streams.{between};
    ghost use Rattle.stim_read.specs.Reading.{Reading};

    ghost Value = { Reading };

    ghost view = { λ s. record { fields = s.fields.items; most = s.lines.most; unused = s.lines.line.items ++ between s.lines.buffer.items s.lines.at s.lines.end; ended = s.lines.ended; taken = s.taken; refused = s.refused; bits = s.bits.items } };

    ghost invariant = { λ s. (length s.spare.items ≡ length s.bits.items) × AllFit s.fields.items (length s.bits.items) × AllApart s.fields.items × (sum_by (λ field. digits_of field.width + 1) s.fields.items ≤ s.lines.most) × (1 ≤ s.lines.most) };
}

// Why a line that is no row is refused behind so many rows.
fn refusal_of(taken: u32) -> StimRefusal
    ensures { RefusesLine taken ⊥ result }
{
    let rows = u64::from(taken);
    if rows == LAST_ROW {
        return StimRefusal::Limit(LAST_ROW);
    }
    StimRefusal::Line(rows + 2)
}

// Puts the bits of the row that a line stands for into the slice, behind so many rows.
fn take_row(taken: u32, fields: &[Field], line: &[u8], bits: &mut [bool]) -> Result<(), StimRefusal>
    requires fit { AllFit fields.now (length bits.old) }
    requires apart { AllApart fields.now }
    ensures row { OnOk result ((taken < most_rows)
        × IsRow fields.now (length bits.old) line.now bits.new) }
    ensures refused { (why : StimRefusal) → result ≡ Err why
        → RefusesLine taken (IsSomeRow fields.now (length bits.old) line.now) why }
    ensures long { length bits.new ≡ length bits.old }
{
    let rows = u64::from(taken);
    if rows == LAST_ROW {
        return Err(StimRefusal::Limit(LAST_ROW));
    }
    if !read_row(fields, line, bits) {
        return Err(StimRefusal::Line(rows + 2));
    }
    Ok(())
}

// So many bits that are 0.
fn zeros(alloc: Global, count: usize) -> Result<Vec<bool>, NoMemory>
    ensures { IfOk result (λ bits. bits.items ≡ replicate count false) }
{
    Ok(vec![in alloc; false; count]?)
}

impl Stim {
    /// Begins to read a stimulus of these inputs. It reads the first line alone, and takes all memory.
    /// Refused carries S1, where that line is no header or there is none.
    pub fn over<S: Source>(
        alloc: Global,
        source: &mut S,
        inputs: &[DataInput],
    ) -> Result<Stim, StimStop>
        requires { AreNames (names_of inputs.now) }
        ensures begun { IfOk result (λ stim. Begins inputs.now (S.left source.old)
            (S.left source.new) stim) }
        ensures refused { (why : StimRefusal) → result ≡ Err (stop.Refused why)
            → (why ≡ refusal.Header) × HasNoHeader inputs.now (S.left source.old) }
        ensures fault { result ≡ Err stop.ReadFault
            → ReadsPart (S.left source.old) (S.left source.new) }
        ensures used { IfOk result (λ stim. UsesEnds 1 [] (S.left source.old) stim.unused
            (S.left source.new)) }
        ensures ahead { ReadsAhead (longest_line inputs.now) [] (S.left source.old)
            (S.left source.new) }
        ensures cause { result ≡ Err stop.ReadFault
            → Rose (S.faults source.old) (S.faults source.new) }
        ensures drained { IfOk result (λ stim. IsDrained stim.ended (S.left source.new)) }
        ensures later { S.faults source.old ≤ S.faults source.new }
    {
        let mut lines = LineReader::new(alloc, room(inputs)?)?;
        match lines.next_line(source)? {
            LineEnd::Line => {}
            LineEnd::End => return Err(StimStop::Refused(StimRefusal::Header)),
            LineEnd::TooLong => return Err(StimStop::Refused(StimRefusal::Header)),
        }
        let Some(order) = header(alloc, inputs, lines.line())? else {
            return Err(StimStop::Refused(StimRefusal::Header));
        };
        let (fields, size) = fields_in_order(alloc, inputs, order.as_slice())?;
        lines.clear();
        let bits = zeros(alloc, size)?;
        let spare = zeros(alloc, size)?;
        Ok(Stim {
            lines,
            fields,
            bits,
            spare,
            taken: 0,
            refused: None,
        })
    }

    /// Begins to read a stimulus of this netlist, whose data inputs are its input ports but the
    /// clock's. It reads the first line alone, and takes all memory. Refused carries S1, where that
    /// line is no header or there is none.
    pub fn new<S: Source>(alloc: Global, source: &mut S, flat: &Flat) -> Result<Stim, StimStop>
        ensures begun { IfOk result (λ stim. Begins (data_inputs flat.now) (S.left source.old)
            (S.left source.new) stim) }
        ensures size { IfOk result (λ stim. length stim.bits ≡ length (input_nets flat.now)) }
        ensures refused { (why : StimRefusal) → result ≡ Err (stop.Refused why)
            → (why ≡ refusal.Header) × HasNoHeader (data_inputs flat.now) (S.left source.old) }
        ensures fault { result ≡ Err stop.ReadFault
            → ReadsPart (S.left source.old) (S.left source.new) }
        ensures used { IfOk result (λ stim. UsesEnds 1 [] (S.left source.old) stim.unused
            (S.left source.new)) }
        ensures ahead { ReadsAhead (longest_line (data_inputs flat.now)) [] (S.left source.old)
            (S.left source.new) }
        ensures cause { result ≡ Err stop.ReadFault
            → Rose (S.faults source.old) (S.faults source.new) }
        ensures drained { IfOk result (λ stim. IsDrained stim.ended (S.left source.new)) }
        ensures later { S.faults source.old ≤ S.faults source.new }
    {
        let inputs = data_inputs(alloc, flat)?;
        Stim::over(alloc, source, inputs.as_slice())
    }

    /// The bits of the row taken last: the inputs in their order, each with its leftmost bit first.
    /// Before the first row all are 0.
    pub fn bits(&self) -> &[bool]
        ensures { result.now ≡ self.now.bits }
    {
        self.bits.as_slice()
    }

    /// Takes the next row. False says that there is none. Refused carries S2 with the line's number,
    /// or S3 with the greatest number of rows, and then each further call gives the same answer. After
    /// ReadFault nothing is lost, and a further call tries the source again. It reads only where the
    /// bytes that were read and not used yet hold no newline, and takes no memory.
    pub fn next<S: Source>(&mut self, source: &mut S) -> Result<bool, StimFault>
        ensures row { result ≡ Ok true
            → TakesRow self.old self.new (rest self.old (S.left source.old)) (rest self.new
            (S.left source.new)) }
        ensures end { result ≡ Ok false → IsAtEnd (rest self.old (S.left source.old))
            × (self.new.ended ≡ true) × (self.new.unused ≡ []) }
        ensures refused { (why : StimRefusal) → result ≡ Err (fault.Refused why)
            → (self.new.refused ≡ Some why) × ((self.old.refused ≡ Some why)
            ⊎ Refuses self.old (rest self.old (S.left source.old)) why) }
        ensures fault { result ≡ Err fault.ReadFault
            → Keeps (rest self.old (S.left source.old)) (rest self.new (S.left source.new))
            × Unbroken self.new.unused × (self.new.ended ≡ false) × (self.new.refused ≡ None) }
        ensures cause { result ≡ Err fault.ReadFault
            → Rose (S.faults source.old) (S.faults source.new) }
        ensures later { S.faults source.old ≤ S.faults source.new }
        ensures again { (why : StimRefusal) → self.old.refused ≡ Some why
            → (result ≡ Err (fault.Refused why)) × (self.new ≡ self.old)
            × (source.new ≡ source.old) }
        ensures open { (more : Bool) → result ≡ Ok more → self.new.refused ≡ None }
        ensures kept { (result ≢ Ok true) → (self.new.bits ≡ self.old.bits)
            × (self.new.taken ≡ self.old.taken) }
        ensures fields { (self.new.fields ≡ self.old.fields)
            × (length self.new.bits ≡ length self.old.bits) }
        ensures ahead { ReadsAhead self.old.most self.old.unused (S.left source.old)
            (S.left source.new) }
        ensures most { self.new.most ≡ self.old.most }
        ensures used { result ≡ Ok true → UsesEnds 1 self.old.unused (S.left source.old)
            self.new.unused (S.left source.new) }
        ensures quiet { (Unbroken self.old.unused → ⊥) → source.new ≡ source.old }
        ensures ended { self.old.ended ≡ true → (source.new ≡ source.old)
            × (self.new.ended ≡ true) }
        ensures drained { IsDrained self.old.ended (S.left source.old)
            → IsDrained self.new.ended (S.left source.new) }
        ensures behind { self.old.refused ≡ None → result ≡ Err (fault.Refused refusal.Header) → ⊥ }
    {
        if let Some(why) = self.refused {
            return Err(StimFault::Refused(why));
        }
        match self.lines.next_line(source)? {
            LineEnd::Line => {}
            LineEnd::End => return Ok(false),
            LineEnd::TooLong => {
                let why = refusal_of(self.taken);
                self.refused = Some(why);
                return Err(StimFault::Refused(why));
            }
        }
        let taken = self.taken;
        let row = take_row(
            taken,
            self.fields.as_slice(),
            self.lines.line(),
            &mut self.spare,
        );
        if let Err(why) = row {
            self.refused = Some(why);
            return Err(StimFault::Refused(why));
        }
        mem::swap(&mut self.bits, &mut self.spare);
        self.lines.clear();
        self.taken += 1;
        Ok(true)
    }
}
