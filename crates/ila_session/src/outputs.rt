//! The line of the outputs at each clock.

ghost use Rattle.std.specs.Prelude.{◌≡◌, ℕ, Bool, map, length, All, ⊤, IfOk, vec_len};
ghost use Rattle.ila_session.specs.Outputs.{clock_line};
ghost use Rattle.ila_session.specs.Pieces.{piece_byte, HasDataNets};

use crate::clock_text::ClockText;
use crate::pieces::{Piece, piece_byte};
use crate::plan::line_pieces;
use ila_base::{Failed, NoMemory, Sink, write_all};
use net_core::{Flat, Machine};
use std::alloc::Global;

/// Writes a line with the values of the output ports at each clock.
#[derive(Drop)]
pub(crate) struct Outputs {
    pieces: Vec<Piece>,
    line: Vec<u8>,
    ghost long: { vec_len line ≡ vec_len pieces },
}

// Puts the bytes of the pieces into the line, as the nets are now.
fn fill_line<M: Machine>(machine: &M, pieces: &[Piece], line: &mut [u8])
    requires nets { All (HasDataNets (M.netlist machine.now)) pieces.now }
    requires long { length line.old ≡ length pieces.now }
    ensures { line.new ≡ map (piece_byte (M.bit machine.now)) pieces.now }
{
    for (at, piece) in pieces.iter().enumerate() {
        line[at] = piece_byte(machine, *piece);
    }
}

impl Outputs {
    /// The lines of a netlist's output ports. It takes all memory.
    pub(crate) fn new(alloc: Global, flat: &Flat) -> Result<Outputs, NoMemory>
        ensures text { IfOk result (λ outputs. (bit : ℕ → Bool)
            → map (piece_byte bit) outputs.pieces.items ≡ clock_line flat.now bit) }
        ensures nets { IfOk result (λ outputs. All (HasDataNets flat.now) outputs.pieces.items) }
    {
        let pieces = line_pieces(alloc, flat)?;
        let line = vec![in alloc; 0; pieces.len()]?;
        Ok(Outputs { pieces, line })
    }
}

impl ClockText for Outputs {
    ghost text = { λ outputs bit t. map (piece_byte (bit t)) outputs.pieces.items };

    ghost serves = { λ outputs net. All (HasDataNets net) outputs.pieces.items };

    ghost follows = { λ _ _ _. ⊤ };

    fn write<M: Machine, K: Sink>(&mut self, machine: &M, trace: &mut K) -> Result<(), Failed> {
        fill_line(machine, self.pieces.as_slice(), &mut self.line);
        write_all(trace, &self.line)
    }
}
