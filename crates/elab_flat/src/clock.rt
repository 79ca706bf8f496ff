//! The clock port of a top module.

ghost use Rattle.std.specs.Prelude.{◌≡◌, ◌↔◌, IsTrue, Some, IfOk};
ghost use Rattle.std.specs.Option.{option_map};
ghost use Rattle.vlog_parse.specs.declared.tree.Dir.TheVariants as dirs;
ghost use Rattle.vlog_parse.specs.ReadTree.{In};
ghost use Rattle.vlog_check.specs.Scope as look;
ghost use Rattle.elab_scope.specs.Nets.{AreNets};
ghost use Rattle.elab_flat.specs.Above.{IsClockIn};

use elab_scope::Nets;
use elab_unfold::read_directions;
use ila_base::{Name, NoMemory};
use std::alloc::Global;
use vlog_check::range_width;
use vlog_parse::{Dir, Module, Range};

fn is_named(port: &Name, name: &[u8]) -> bool
    ensures { IsTrue result ↔ (port.now ≡ name.now) }
{
    port.bytes() == name
}

// Whether the name stands in the header.
fn is_port(m: &Module, name: &[u8]) -> bool
    ensures { IsTrue result ↔ In m.now.ports name.now }
{
    for port in m.ports.as_slice() {
        if is_named(port, name) {
            return true;
        }
    }
    false
}

fn is_input(dir: Option<Dir>) -> bool
    ensures { IsTrue result ↔ (dir ≡ Some dirs.Input) }
{
    match dir {
        Some(Dir::Input) => true,
        Some(Dir::Output) | None => false,
    }
}

// Whether a net of this range is there, and has one bit.
fn is_one_bit(range: Option<Option<Range>>) -> bool
    ensures { IsTrue result ↔ (option_map look.range_width range ≡ Some 1) }
{
    match range {
        None => false,
        Some(range) => range_width(range) == 1,
    }
}

/// Whether the name is that of a one-bit input of a module with these nets.
pub fn is_clock(alloc: Global, m: &Module, nets: &Nets, name: &[u8]) -> Result<bool, NoMemory>
    requires { AreNets m.now nets.now }
    ensures { IfOk result (λ there. IsTrue there ↔ IsClockIn m.now name.now) }
{
    let directions = read_directions(alloc, m)?;
    let port = is_port(m, name);
    let input = is_input(directions.get(name));
    let bit = is_one_bit(nets.ranges.get(name));
    Ok(port && input && bit)
}
