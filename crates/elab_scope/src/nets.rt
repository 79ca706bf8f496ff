ghost use Rattle.std.specs.Prelude.{◌≡◌, ℕ, List, [], ◌∷◌, ◌++◌, filter, IfOk, OnOk};
ghost use Rattle.vlog_parse.specs.declared.tree.Module.{Module as ModuleOf};
ghost use Rattle.vlog_parse.specs.declared.tree.Item.{Item as ItemOf};
ghost use Rattle.vlog_parse.specs.declared.tree.Item.TheVariants.{Net};
ghost use Rattle.elab_scope.specs.Nets.{AreNets, AreNetsOfAll, AreDeclared, IsMentioned, rows_seen, is_other};

use ila_base::NoMemory;
use std::alloc::Global;
use vlog_check::Table;
use vlog_parse::{Decl, Item, Module, Range, Tree};

/// The nets of a module.
#[derive(Drop)]
pub struct Nets<'a> {
    /// The range of each, that of its first declaration.
    pub ranges: Table<'a, Option<Range>>,
    /// Their names in order of first mention in the header or a declaration, each with its range.
    pub order: Vec<(&'a [u8], Option<Range>)>,
}

/// What some items of a module declare.
#[derive(Drop)]
pub struct Declared<'a> {
    /// The range of each name, that of its first declaration.
    ranges: Table<'a, Option<Range>>,
    /// The first declaration of each name, in order.
    firsts: Vec<(&'a [u8], Option<Range>)>,
}

/// The nets of a module, where some names were mentioned.
#[derive(Drop)]
pub struct Reading<'a> {
    ranges: Table<'a, Option<Range>>,
    seen: Table<'a, bool>,
    order: Vec<(&'a [u8], Option<Range>)>,
}

impl<'a> Declared<'a> {
    fn declare(&mut self, d: &'a Decl) -> Result<(), NoMemory>
        ensures { OnOk result ((given : List ItemOf) → AreDeclared given self.old → AreDeclared (given ++ Net d.now ∷ []) self.new) }
    {
        let name = d.name.bytes();
        if self.ranges.get(name).is_some() {
            return Ok(());
        }
        self.ranges.put(name, d.range)?;
        self.firsts.push((name, d.range))?;
        Ok(())
    }

    // Adds what an item declares behind others.
    fn add(&mut self, item: &'a Item) -> Result<(), NoMemory>
        ensures { OnOk result ((given : List ItemOf) → AreDeclared given self.old → AreDeclared (given ++ item.now ∷ []) self.new) }
    {
        match item {
            Item::Net(d) => {
                self.declare(d)?;
                Ok(())
            }
            Item::Assign(_, _) => Ok(()),
            Item::Gate(_) => Ok(()),
            Item::Inst(_) => Ok(()),
        }
    }
}

// What the items of a module declare.
fn read_declared<'a>(alloc: Global, m: &'a Module) -> Result<Declared<'a>, NoMemory>
    ensures { IfOk result (AreDeclared m.now.items) }
{
    let mut declared = Declared {
        ranges: Table::new(alloc),
        firsts: Vec::new(alloc),
    };
    for item in m.items.as_slice() {
        declared.add(item)?;
    }
    Ok(declared)
}

impl<'a> Reading<'a> {
    // Mentions a name behind others.
    fn mention(&mut self, name: &'a [u8]) -> Result<(), NoMemory>
        ensures { OnOk result ((m : ModuleOf) (names : List (List ℕ)) → IsMentioned m names self.old → IsMentioned m (names ++ name.now ∷ []) self.new) }
    {
        if self.seen.get(name).is_some() {
            return Ok(());
        }
        self.seen.put(name, true)?;
        match self.ranges.get(name) {
            None => Ok(()),
            Some(range) => {
                self.order.push((name, range))?;
                Ok(())
            }
        }
    }
}

fn mention_header<'a>(reading: &mut Reading<'a>, m: &'a Module) -> Result<(), NoMemory>
    ensures { OnOk result (IsMentioned m.now [] reading.old → IsMentioned m.now m.now.ports reading.new) }
{
    for port in m.ports.as_slice() {
        reading.mention(port.bytes())?;
    }
    Ok(())
}

// Adds the nets that don't stand in the header.
fn add_others<'a>(
    header: &Table<bool>,
    firsts: &[(&'a [u8], Option<Range>)],
    order: &mut Vec<(&'a [u8], Option<Range>)>,
) -> Result<(), NoMemory>
    ensures { OnOk result (rows_seen order.new.items ≡ rows_seen order.old.items ++ filter (is_other header.now) (rows_seen firsts.now)) }
{
    for first in firsts {
        if header.get(first.0).is_none() {
            order.push(*first)?;
        }
    }
    Ok(())
}

// The nets of a module.
fn read_nets<'a>(alloc: Global, m: &'a Module) -> Result<Nets<'a>, NoMemory>
    ensures { IfOk result (AreNets m.now) }
{
    let Declared { ranges, firsts } = read_declared(alloc, m)?;
    let mut reading = Reading {
        ranges,
        seen: Table::new(alloc),
        order: Vec::new(alloc),
    };
    mention_header(&mut reading, m)?;
    let Reading {
        ranges,
        seen,
        mut order,
    } = reading;
    add_others(&seen, firsts.as_slice(), &mut order)?;
    Ok(Nets { ranges, order })
}

/// The nets of each module of a tree. It takes time linear in the text.
pub fn read_all_nets<'a>(alloc: Global, tree: &'a Tree) -> Result<Vec<Nets<'a>>, NoMemory>
    ensures { IfOk result (λ nets. AreNetsOfAll tree.now.modules nets.items) }
{
    let mut nets = Vec::new(alloc);
    for m in tree.modules.as_slice() {
        let own = read_nets(alloc, m)?;
        nets.push(own)?;
    }
    Ok(nets)
}
