//! The line of a clock as a piece for each byte, so that it is put together without taking memory.

ghost use Rattle.std.specs.Prelude.{◌≡◌, ◌<◌, ◌≤◌, ◌+◌, ◌*◌, ◌^◌, ◌++◌, length, IfOk, OnOk};
ghost use Rattle.stim_read.specs.Stimulus.{padding_of};
ghost use Rattle.ila_session.specs.Outputs.{hex_digit, bit_value};
ghost use Rattle.ila_session.specs.Pieces.{net_bit, digit_byte, piece_byte, filled_net, digit_at, word_pieces, IsDataNet, HasDataNets};

use ila_base::NoMemory;
use net_core::{Machine, NetId};

/// The nets of a hexadecimal digit, the highest bit first. `None` is 0.
#[derive(Clone, Copy, Debug, PartialEq, Eq)]
pub struct Digit {
    pub first: Option<NetId>,
    pub second: Option<NetId>,
    pub third: Option<NetId>,
    pub fourth: Option<NetId>,
}

/// A byte of a line.
#[derive(Clone, Copy, Debug, PartialEq, Eq)]
pub enum Piece {
    /// This byte.
    Byte(u8),
    /// The digit that the nets make.
    Nets(Digit),
}

// The weight of a net's bit: 1 where it is 1, else 0.
fn weight<M: Machine>(machine: &M, net: Option<NetId>) -> u8
    requires { IsDataNet (M.netlist machine.now) net }
    ensures { result ≡ bit_value (net_bit (M.bit machine.now) net) }
{
    match net {
        None => 0,
        Some(net) => { if machine.value(net) { 1 } else { 0 } }
    }
}

// The lower-case hexadecimal digit of a number.
fn hex_digit(n: u8) -> u8
    requires { n < 16 }
    ensures { result ≡ hex_digit n }
{
    if n < 10 { b'0' + n } else { b'a' - 10 + n }
}

/// The byte of a piece, as the nets are now.
pub fn piece_byte<M: Machine>(machine: &M, piece: Piece) -> u8
    requires { HasDataNets (M.netlist machine.now) piece }
    ensures { result ≡ piece_byte (M.bit machine.now) piece }
{
    match piece {
        Piece::Byte(byte) => byte,
        Piece::Nets(digit) => {
            let high = 8 * weight(machine, digit.first) + 4 * weight(machine, digit.second);
            let low = 2 * weight(machine, digit.third) + weight(machine, digit.fourth);
            hex_digit(high + low)
        }
    }
}

// Net `j` of a word that is filled up in front to whole digits by this many.
fn filled_net(nets: &[NetId], padding: usize, j: usize) -> Option<NetId>
    requires { padding ≡ padding_of (length nets.now) }
    ensures { result ≡ filled_net nets.now j }
{
    if j < padding {
        return None;
    }
    nets.get(j - padding).copied()
}

// Digit `k` of a word of these nets.
fn digit_at(nets: &[NetId], padding: usize, k: usize) -> Digit
    requires padding { padding ≡ padding_of (length nets.now) }
    requires few { 4 * k + 3 < 2 ^ 64 }
    ensures { result ≡ digit_at nets.now k }
{
    Digit {
        first: filled_net(nets, padding, 4 * k),
        second: filled_net(nets, padding, 4 * k + 1),
        third: filled_net(nets, padding, 4 * k + 2),
        fourth: filled_net(nets, padding, 4 * k + 3),
    }
}

/// Puts the digits of a word of these nets behind the pieces.
pub fn push_word(pieces: &mut Vec<Piece>, nets: &[NetId]) -> Result<(), NoMemory>
    ensures { OnOk result (pieces.new.items ≡ pieces.old.items ++ word_pieces nets.now) }
{
    let digits = (nets.len() + 3) / 4;
    let padding = 4 * digits - nets.len();
    for k in 0..digits {
        pieces.push(Piece::Nets(digit_at(nets, padding, k)))?;
    }
    Ok(())
}
