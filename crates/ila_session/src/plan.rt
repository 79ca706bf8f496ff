//! The lines of the outputs text.

ghost use Rattle.std.specs.Prelude.{◌+◌, ◌<◌, ◌^◌, if◌then◌else◌, [], ◌≡◌, ℕ, ◌++◌, Bool, map, length, All, IfOk, OnOk};
ghost use Rattle.net_core.specs.Netlist.{numbers, port_nets};
ghost use Rattle.net_core.specs.WellFormed.{IsFlat};
ghost use Rattle.stim_read.specs.Ports.{port_name};
ghost use Rattle.ila_session.specs.Outputs.{word_at, header_line, clock_line, space_before};
ghost use Rattle.ila_session.specs.Pieces.{piece_byte, space_pieces, HasDataNets, IsPort};

use crate::pieces::{Piece, push_word};
use ila_base::NoMemory;
use net_core::{Flat, NetId, Port};
use std::alloc::Global;

// The bits of a port.
fn nets_of<'a>(flat: &'a Flat, port: Port) -> &'a [NetId]
    ensures { numbers result.now ≡ port_nets flat.now.groups port }
{
    match flat.groups().get(port.group as usize) {
        None => &[],
        Some(group) => group.bits.as_slice(),
    }
}

// The name of a port.
fn name_of<'a>(flat: &'a Flat, port: Port) -> &'a [u8]
    ensures { result.now ≡ port_name flat.now port }
{
    match flat.groups().get(port.group as usize) {
        None => &[],
        Some(group) => group.name.bytes(),
    }
}

// Puts the name of a port behind so many words of a line, if it is an output. Gives how many words
// there are then.
fn push_name(line: &mut Vec<u8>, words: usize, flat: &Flat, port: Port) -> Result<usize, NoMemory>
    requires { words + 1 < 2 ^ 64 }
    ensures line { OnOk result (line.new.items ≡ line.old.items
        ++ (if port.output then space_before words ++ port_name flat.now port else [])) }
    ensures words { IfOk result (λ n. n ≡ (if port.output then words + 1 else words)) }
{
    if !port.output {
        return Ok(words);
    }
    if words > 0 {
        line.push(b' ')?;
    }
    line.extend_from_slice(name_of(flat, port))?;
    Ok(words + 1)
}

/// The line with the names of the output ports.
pub fn header_line(alloc: Global, flat: &Flat) -> Result<Vec<u8>, NoMemory>
    ensures { IfOk result (λ line. line.items ≡ header_line flat.now) }
{
    let mut line = Vec::new(alloc);
    let mut words = 0;
    for port in flat.ports() {
        words = push_name(&mut line, words, flat, *port)?;
    }
    line.push(b'\n')?;
    Ok(line)
}

// Puts a space behind so many words of a line, if there are any.
fn push_space(pieces: &mut Vec<Piece>, words: usize) -> Result<(), NoMemory>
    ensures { OnOk result (pieces.new.items ≡ pieces.old.items ++ space_pieces words) }
{
    if words > 0 {
        pieces.push(Piece::Byte(b' '))?;
    }
    Ok(())
}

// Puts the digits of a port behind so many words of a line, if it is an output. Gives how many words
// there are then.
fn push_digits(
    pieces: &mut Vec<Piece>,
    words: usize,
    flat: &Flat,
    port: Port,
) -> Result<usize, NoMemory>
    requires { words + 1 < 2 ^ 64 }
    ensures text { OnOk result ((bit : ℕ → Bool)
        → map (piece_byte bit) pieces.new.items ≡ map (piece_byte bit) pieces.old.items
        ++ (if port.output then space_before words ++ word_at flat.now bit port else [])) }
    ensures nets { IsFlat flat.now → OnOk result (All (HasDataNets flat.now) pieces.old.items
        → IsPort flat.now port → All (HasDataNets flat.now) pieces.new.items) }
    ensures words { IfOk result (λ n. n ≡ (if port.output then words + 1 else words)) }
{
    if !port.output {
        return Ok(words);
    }
    push_space(pieces, words)?;
    push_word(pieces, nets_of(flat, port))?;
    Ok(words + 1)
}

/// The pieces of the line of a clock.
pub fn line_pieces(alloc: Global, flat: &Flat) -> Result<Vec<Piece>, NoMemory>
    ensures text { IfOk result (λ pieces. (bit : ℕ → Bool)
        → map (piece_byte bit) pieces.items ≡ clock_line flat.now bit) }
    ensures nets { IfOk result (λ pieces. All (HasDataNets flat.now) pieces.items) }
{
    let mut pieces = Vec::new(alloc);
    let mut words = 0;
    for port in flat.ports() {
        words = push_digits(&mut pieces, words, flat, *port)?;
    }
    pieces.push(Piece::Byte(b'\n'))?;
    Ok(pieces)
}
