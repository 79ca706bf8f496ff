ghost use Rattle.std.specs.Prelude.{◌≡◌, IfOk};
ghost use Rattle.elab_scope.specs.Modules.{AreNumbered, part_of};

use ila_base::NoMemory;
use std::alloc::Global;
use vlog_check::{Primitive, Table, cell_of};
use vlog_parse::{Inst, Tree};

/// What an instance is of: a cell, or the module with this number.
#[derive(Clone, Copy, Debug)]
pub enum Part {
    Cell(Primitive),
    Module(usize),
}

/// The modules of a tree by their names.
#[derive(Drop)]
pub struct Modules<'a> {
    pub tree: &'a Tree,
    /// The number of the first module of each name.
    pub numbers: Table<'a, usize>,
}

/// The modules of a tree by their names.
pub fn read_modules<'a>(alloc: Global, tree: &'a Tree) -> Result<Modules<'a>, NoMemory>
    ensures numbered { IfOk result AreNumbered }
    ensures own { IfOk result (λ modules. modules.tree.now ≡ tree.now) }
{
    let mut numbers = Table::new(alloc);
    for (k, m) in tree.modules.as_slice().iter().enumerate() {
        numbers.put(m.name.bytes(), k)?;
    }
    Ok(Modules { tree, numbers })
}

/// What an instance is of: a cell counts before a module of its name.
pub fn part_of(modules: &Modules, inst: &Inst) -> Option<Part>
    requires { AreNumbered modules.now }
    ensures { result ≡ part_of modules.now.tree.now inst.now }
{
    match cell_of(inst.module.bytes()) {
        Some(cell) => Some(Part::Cell(cell)),
        None => match modules.numbers.get(inst.module.bytes()) {
            Some(number) => Some(Part::Module(number)),
            None => None,
        },
    }
}
