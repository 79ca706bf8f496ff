ghost use Rattle.std.specs.Prelude.{◌≡◌, ℕ, List, Bool, [], IfOk};
ghost use Rattle.net_core.specs.Netlist.{Netlist};
ghost use Rattle.net_levels.specs.Levels.{AreLevels};
ghost use Rattle.net_core.specs.Run.{StandsFor};
ghost use Rattle.clock_sim.specs.Plan.{net_bits, net_content};

use crate::bits::Bits;
use crate::build::{
    data_inputs, first_bits, ordered_slots, push_formulas, push_registers, push_rows, start_stored,
    start_values,
};
use crate::clocking::{advance, place_inputs, settle};
use crate::evaluate::bit_number;
use crate::plan::{Formula, Row};
use ila_base::NoMemory;
use net_core::{CellId, Flat, Machine, NetId};
use net_levels::types::Levels;
use std::alloc::Global;
use std::marker::Model;

/// The plain simulator: at each clock it evaluates every output once, in the order of levels. It keeps
/// the netlist as flat arrays of numbers, and takes all its memory when it is made.
#[derive(Drop)]
pub struct Plain<'a> {
    flat: &'a Flat,
    inputs: Vec<u32>,
    bases: Vec<usize>,
    pins: Vec<u32>,
    registers: Vec<Row>,
    places: Vec<u32>,
    formulas: Vec<Formula>,
    values: Vec<bool>,
    stored: Bits,
}

impl<'a> Model for Plain<'a> {
    ghost use Rattle.clock_sim.specs.Plan.{State, KeepsPlan};

    ghost Value = { State };

    ghost view = { λ plain. record { net = plain.flat.now; values = plain.values.items; stored = plain.stored } };

    ghost invariant = { λ plain. KeepsPlan plain.flat.now plain.inputs.items plain.bases.items plain.pins.items plain.registers.items plain.places.items plain.formulas.items plain.values.items plain.stored };
}

impl<'a> Plain<'a> {
    /// A simulator of the netlist before its first clock, by its level numbers. It takes time linear in
    /// the net bits, cells, pins and stored bits, and n log n in the n outputs.
    pub fn new(alloc: Global, flat: &'a Flat, levels: &Levels) -> Result<Plain<'a>, NoMemory>
        requires { AreLevels flat.now levels.now }
        ensures netlist { IfOk result (λ plain. plain.net ≡ flat.now) }
        ensures stands { IfOk result (λ plain. StandsFor flat.now (net_bits plain) (net_content plain) []) }
    {
        let inputs = data_inputs(alloc, flat)?;
        let mut row_pins = Vec::new(alloc);
        let mut rows = Vec::new(alloc);
        let count = push_rows(&mut row_pins, &mut rows, flat.cells())?;
        let bases = first_bits(alloc, rows.as_slice())?;
        let mut pins = Vec::new(alloc);
        let mut registers = Vec::new(alloc);
        push_registers(&mut pins, &mut registers, flat.cells())?;
        let slots = ordered_slots(alloc, flat, levels)?;
        let mut places = Vec::new(alloc);
        let mut formulas = Vec::new(alloc);
        push_formulas(
            &mut places,
            &mut formulas,
            row_pins.as_slice(),
            rows.as_slice(),
            slots.as_slice(),
        )?;
        let values = start_values(alloc, flat.net_count())?;
        let stored = start_stored(alloc, flat.cells(), count)?;
        Ok(Plain {
            flat,
            inputs,
            bases,
            pins,
            registers,
            places,
            formulas,
            values,
            stored,
        })
    }
}

impl<'a> Machine for Plain<'a> {
    ghost netlist = { λ plain. plain.net };

    ghost bit = { λ plain. net_bits plain };

    ghost content = { λ plain. net_content plain };

    fn step(&mut self, inputs: &[bool]) {
        place_inputs(&mut self.values, self.inputs.as_slice(), inputs);
        settle(
            &mut self.values,
            self.places.as_slice(),
            self.formulas.as_slice(),
            &self.stored,
        );
        advance(
            &mut self.stored,
            self.values.as_slice(),
            self.pins.as_slice(),
            self.registers.as_slice(),
        );
    }

    fn value(&self, net: NetId) -> bool {
        bit_number(self.values.as_slice(), net.0 as usize + 2)
    }

    fn stored(&self, cell: CellId, index: u32) -> bool {
        let base = self.bases[cell.0 as usize];
        self.stored.get(base + index as usize)
    }
}
