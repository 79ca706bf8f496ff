ghost use Rattle.std.specs.Prelude.{◌≡◌, ◌++◌, OnOk};
ghost use Rattle.grammar.specs.Rule.{repeat};
ghost use Rattle.vlog_parse.specs.declared.sort.Sort.TheVariants.{Module as ModuleWord};
ghost use Rattle.vlog_parse.specs.Expressions.{is};
ghost use Rattle.vlog_parse.specs.Design.{body, module_over, design_over};
ghost use Rattle.grammar.specs.Giving.{Gives};
ghost use Rattle.vlog_parse.specs.Skipping.{cut};

use crate::list::{Part, Repeated};
use crate::parser::Parser;
use crate::sort::Sort;
use crate::tree::{Item, Module, Tree};
use grammar::Stop;
use ila_base::{Items, NoMemory};
use std::alloc::Global;

/// Puts the items behind those that are there.
fn append(items: &mut Items<Item>, more: Items<Item>) -> Result<(), NoMemory>
    ensures { OnOk result (items.new ≡ items.old ++ more) }
{
    'items: for item in more.into_vec() {
        items.push(item)?;
    }
    Ok(())
}

impl<'a> Parser<'a> {
    /// The items of a module.
    fn body(&mut self, alloc: Global) -> Result<Items<Item>, Stop>
        ensures { Gives ((body cut).read self.old) result self.new }
    {
        let mut items = Items::new(alloc);
        'items: while self.sees_item() {
            let more = self.item(alloc)?;
            append(&mut items, more)?;
        }
        Ok(items)
    }

    /// A module (IEEE 1364-2005, 12.1).
    fn module(&mut self, alloc: Global) -> Result<Module, Stop>
        ensures { Gives ((module_over cut).read self.old) result self.new }
    {
        self.mark(Sort::Module)?;
        let named = self.name(alloc)?;
        let header = self.header(alloc)?;
        self.mark(Sort::Semicolon)?;
        let more = self.body(alloc)?;
        self.mark(Sort::EndModule)?;
        let mut items = header.items;
        append(&mut items, more)?;
        Ok(Module {
            name: named.name,
            place: named.place,
            ports: header.names,
            items,
        })
    }

    /// The modules of a text.
    fn modules(&mut self, alloc: Global) -> Result<Items<Module>, Stop>
        ensures { Gives ((repeat (is ModuleWord) (module_over cut)).read self.old) result self.new }
    {
        self.repeat(alloc)
    }

    /// The design that the text is, to its end.
    pub fn design(&mut self, alloc: Global) -> Result<Tree, Stop>
        ensures { Gives ((design_over cut).read self.old) result self.new }
    {
        let modules = self.modules(alloc)?;
        self.end()?;
        Ok(Tree { modules })
    }
}

impl Part for Module {
    ghost use Rattle.vlog_parse.specs.Design.{module_over};
    ghost use Rattle.vlog_parse.specs.Skipping.{cut};

    ghost reader = { (module_over cut).read };

    fn part(parser: &mut Parser, alloc: Global) -> Result<Module, Stop> {
        parser.module(alloc)
    }
}

impl Repeated for Module {
    ghost use Rattle.vlog_parse.specs.declared.sort.Sort.TheVariants.{Module as ModuleWord};
    ghost use Rattle.vlog_parse.specs.Expressions.{is};

    ghost opens = { is ModuleWord };

    fn is_next(parser: &Parser) -> bool {
        parser.sees(Sort::Module)
    }
}
