ghost use Rattle.std.specs.Prelude.{◌≡◌};
ghost use Rattle.vlog_parse.specs.declared.tree.Inst.{Inst as InstOf};
ghost use Rattle.vlog_check.specs.Kinds.{IsKind, kind_seen};
ghost use Rattle.vlog_check.specs.Scope as scope;
ghost use Rattle.vlog_check.specs.Cells as table;
ghost use Rattle.vlog_check.specs.FindingPins as finds;
ghost use Rattle.vlog_check.specs.declared.kind.Kind.TheVariants.{Cell};
ghost use Rattle.vlog_check.specs.Names.{IsNames};

use crate::expr::range_width;
use crate::names::Names;
use crate::params::{ADDRESS_LIMIT, DATA_LIMIT, only_amount};
use crate::primitive::{Primitive, Size, pin_of as cell_pin};
use vlog_parse::{Dir, Inst};

/// A pin of an instance: its direction and its width, where it has them.
#[derive(Clone, Copy, Debug)]
pub struct Pin {
    pub way: Option<Dir>,
    pub width: Option<u64>,
}

/// A cell, and how wide its pins are that its parameters make so.
#[derive(Clone, Copy, Debug)]
pub struct Sized {
    pub cell: Primitive,
    pub address: Option<u64>,
    pub data: Option<u64>,
}

/// What an instance is of.
#[derive(Drop)]
pub enum Kind<'a> {
    Cell(Sized),
    Module(&'a Names<'a>),
}

/// The cell of an instance, with its widths.
pub fn sized_cell<'a>(cell: Primitive, i: &Inst) -> Kind<'a>
    ensures kind { IsKind i.now result }
    ensures cell { kind_seen result ≡ scope.OfCell cell }
{
    let params = i.params.as_slice();
    Kind::Cell(Sized {
        cell,
        address: only_amount(b"AW", ADDRESS_LIMIT, params),
        data: only_amount(b"DW", DATA_LIMIT, params),
    })
}

fn bits_of(sized: Sized, size: Size) -> Option<u64>
    ensures { (i : InstOf) → IsKind i (Cell sized) → result ≡ table.bits_of i.params size }
{
    match size {
        Size::One => Some(1),
        Size::Four => Some(4),
        Size::Address => sized.address,
        Size::Data => sized.data,
    }
}

fn pin_of_cell(sized: Sized, name: &[u8]) -> Option<Pin>
    ensures { (i : InstOf) → IsKind i (Cell sized) → result ≡ scope.pin_of i (scope.OfCell sized.cell) name.now }
{
    match cell_pin(sized.cell, name) {
        None => None,
        Some(pin) => Some(Pin {
            way: Some(pin.way),
            width: bits_of(sized, pin.size),
        }),
    }
}

fn direction_of(names: &Names, name: &[u8]) -> Option<Dir>
    ensures { IsNames names.now → result ≡ scope.direction_of names.now.module.now name.now }
{
    match names.directed.get(name) {
        None => None,
        Some(port) => Some(port.dir),
    }
}

fn pin_of_module(names: &Names, name: &[u8]) -> Option<Pin>
    ensures { (i : InstOf) → IsNames names.now → result ≡ scope.pin_of i (scope.OfModule names.now.module.now) name.now }
{
    if names.ports.get(name).is_none() {
        return None;
    }
    let width = match names.ranges.get(name) {
        None => None,
        Some(range) => Some(range_width(range)),
    };
    Some(Pin {
        way: direction_of(names, name),
        width,
    })
}

/// The pin of a name of what an instance is of.
pub fn pin_of(kind: &Kind, name: &[u8]) -> Option<Pin>
    ensures { (i : InstOf) → IsKind i kind.now → result ≡ scope.pin_of i (kind_seen kind.now) name.now }
{
    match kind {
        Kind::Cell(sized) => pin_of_cell(*sized, name),
        Kind::Module(names) => pin_of_module(names, name),
    }
}

/// Whether a pin is an input.
pub fn goes_in(pin: Option<Pin>) -> bool
    ensures { result ≡ finds.goes_in pin }
{
    match pin {
        None => false,
        Some(pin) => match pin.way {
            Some(Dir::Input) => true,
            _ => false,
        },
    }
}

/// Whether a pin is an output.
pub fn goes_out(pin: Option<Pin>) -> bool
    ensures { result ≡ finds.goes_out pin }
{
    match pin {
        None => false,
        Some(pin) => match pin.way {
            Some(Dir::Output) => true,
            _ => false,
        },
    }
}
