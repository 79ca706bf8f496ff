ghost use Rattle.std.specs.Prelude.{◌≡◌, ℕ, List, [], ◌∷◌, ◌++◌, ◌<◌, ◌^◌, length, map, slice_get, Some, IfOk, IfSome, OnOk};
ghost use Rattle.vlog_parse.specs.declared.tree.Module.{Module as ModuleOf};
ghost use Rattle.vlog_parse.specs.declared.tree.Item.{Item as ItemOf};
ghost use Rattle.vlog_check.specs.Scope as look;
ghost use Rattle.elab_count.specs.declared.amounts.Count.{Count as CountOf};
ghost use Rattle.elab_scope.specs.Modules.{AreNumbered};
ghost use Rattle.elab_scope.specs.Nets.{AreNets, AreNetsOfAll, named_nets};
ghost use Rattle.elab_unfold.specs.Places.{ArePlaces, rows_width};
ghost use Rattle.elab_unfold.specs.Shapes.{port_seen, port_entry};
ghost use Rattle.elab_unfold.specs.Steps.{IsReadShape, AreShapes, directions_of};

use crate::places::{Places, place_nets};
use crate::shape::{PortNet, Shape};
use crate::steps::read_steps;
use elab_count::Count;
use elab_scope::{Modules, Nets};
use ila_base::NoMemory;
use std::alloc::Global;
use vlog_check::Table;
use vlog_parse::{Dir, Item, Module};

// Says which direction an item declares behind others.
fn add_direction<'a>(directions: &mut Table<'a, Dir>, item: &'a Item) -> Result<(), NoMemory>
    ensures { OnOk result ((given : List ItemOf) → ((name : List ℕ) → look.value_of directions.old name ≡ look.value_of (directions_of given) name) → (name : List ℕ) → look.value_of directions.new name ≡ look.value_of (directions_of (given ++ item.now ∷ [])) name) }
{
    match item {
        Item::Net(d) => match d.dir {
            None => Ok(()),
            Some(dir) => {
                directions.put(d.name.bytes(), dir)?;
                Ok(())
            }
        },
        Item::Assign(_, _) => Ok(()),
        Item::Gate(_) => Ok(()),
        Item::Inst(_) => Ok(()),
    }
}

/// The direction of each name of a module that has one, that of its first declaration by a direction.
pub fn read_directions<'a>(alloc: Global, m: &'a Module) -> Result<Table<'a, Dir>, NoMemory>
    ensures { IfOk result (λ directions. (name : List ℕ) → look.value_of directions name ≡ look.direction_of m.now name) }
{
    let mut directions = Table::new(alloc);
    for item in m.items.as_slice() {
        add_direction(&mut directions, item)?;
    }
    Ok(directions)
}

fn is_output(dir: Option<Dir>) -> bool
    ensures { result ≡ look.is_output dir }
{
    match dir {
        Some(Dir::Output) => true,
        Some(Dir::Input) | None => false,
    }
}

// The names of a header with their nets.
fn read_ports<'a>(
    alloc: Global,
    m: &'a Module,
    places: &Places,
) -> Result<Vec<PortNet<'a>>, NoMemory>
    requires places { ArePlaces places.now }
    requires own { places.now.holder.now ≡ m.now }
    ensures { IfOk result (λ ports. map port_seen ports.items ≡ map (port_entry m.now) m.now.ports) }
{
    let directions = read_directions(alloc, m)?;
    let mut ports = Vec::new(alloc);
    for name in m.ports.as_slice() {
        let name = name.bytes();
        ports.push(PortNet {
            name,
            output: is_output(directions.get(name)),
            net: places.nets.get(name),
        })?;
    }
    Ok(ports)
}

// The shape of a module that is unfolded, with its count.
fn read_shape<'a>(
    alloc: Global,
    modules: &Modules,
    counts: &[Option<Count>],
    m: &'a Module,
    nets: &'a Nets<'a>,
    count: Count,
) -> Result<Shape<'a>, NoMemory>
    requires modules { AreNumbered modules.now }
    requires nets { AreNets m.now nets.now }
    requires room { rows_width (named_nets m.now) < 2 ^ 32 }
    ensures { IfOk result (IsReadShape modules.now.tree.now counts.now m.now count) }
{
    let order = nets.order.as_slice();
    let places = place_nets(alloc, m, order)?;
    let ports = read_ports(alloc, m, &places)?;
    let steps = read_steps(alloc, modules, counts, m)?;
    Ok(Shape {
        order,
        places,
        ports,
        steps,
        size: count.nets,
        depth: count.depth,
    })
}

// The shape of a module that isn't unfolded.
fn no_shape<'a>(alloc: Global, m: &'a Module) -> Shape<'a> {
    Shape {
        order: &[],
        places: Places {
            holder: m,
            nets: Table::new(alloc),
        },
        ports: Vec::new(alloc),
        steps: Vec::new(alloc),
        size: 0,
        depth: 0,
    }
}

// The shape of a module with its count, if it has one.
fn shape_of<'a>(
    alloc: Global,
    modules: &Modules,
    counts: &[Option<Count>],
    m: &'a Module,
    nets: &'a Nets<'a>,
    count: Option<Count>,
) -> Result<Shape<'a>, NoMemory>
    requires modules { AreNumbered modules.now }
    requires nets { AreNets m.now nets.now }
    requires room { IfSome count (λ c. rows_width (named_nets m.now) < 2 ^ 32) }
    ensures { IfOk result (λ shape. IfSome count (λ c. IsReadShape modules.now.tree.now counts.now m.now c shape)) }
{
    match count {
        None => Ok(no_shape(alloc, m)),
        Some(count) => {
            let shape = read_shape(alloc, modules, counts, m, nets, count)?;
            Ok(shape)
        }
    }
}

/// The shapes of the modules of a tree with these nets, by their numbers.
pub fn read_shapes<'a>(
    alloc: Global,
    modules: &Modules<'a>,
    nets: &'a [Nets<'a>],
    counts: &[Option<Count>],
) -> Result<Vec<Shape<'a>>, NoMemory>
    requires modules { AreNumbered modules.now }
    requires nets { AreNetsOfAll modules.now.tree.now.modules nets.now }
    requires size { length counts.now ≡ length modules.now.tree.now.modules }
    requires room { (n : ℕ) (m : ModuleOf) (c : CountOf) → slice_get modules.now.tree.now.modules n ≡ Some m → slice_get counts.now n ≡ Some (Some c) → rows_width (named_nets m) < 2 ^ 32 }
    ensures { IfOk result (λ shapes. AreShapes modules.now.tree.now counts.now (length modules.now.tree.now.modules) shapes.items) }
{
    let mut shapes = Vec::new(alloc);
    for (k, m) in modules.tree.modules.as_slice().iter().enumerate() {
        let shape = shape_of(alloc, modules, counts, m, &nets[k], counts[k])?;
        shapes.push(shape)?;
    }
    Ok(shapes)
}
