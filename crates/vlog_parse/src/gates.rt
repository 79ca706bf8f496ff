ghost use Rattle.std.specs.Prelude.{◌≡◌, map, IfOk};
ghost use Rattle.grammar.specs.Rule.{list};
ghost use Rattle.vlog_parse.specs.declared.sort.Sort.TheVariants.{Comma};
ghost use Rattle.vlog_parse.specs.Expressions.{is};
ghost use Rattle.vlog_parse.specs.Items.{some_name, terminals_of, terminals, gate_item, gate_items};
ghost use Rattle.grammar.specs.Giving.{Gives};
ghost use Rattle.vlog_parse.specs.Skipping.{cut};

use crate::list::Part;
use crate::parser::Parser;
use crate::parts::{Named, Terminals};
use crate::sort::Sort;
use crate::tree::{Expr, Gate, GateKind, Item};
use grammar::Stop;
use ila_base::{Items, NoMemory, Place};
use std::alloc::Global;

/// A gate's name and place, and its terminals.
fn terminals_of(name: Option<Named>, place: Place, args: Items<Expr>) -> Terminals
    ensures { result ≡ terminals_of name place args }
{
    match name {
        Some(named) => Terminals {
            name: Some(named.name),
            place: named.place,
            args,
        },
        None => Terminals {
            name: None,
            place,
            args,
        },
    }
}

/// The gates of a kind.
fn gates(alloc: Global, kind: GateKind, all: Items<Terminals>) -> Result<Items<Item>, NoMemory>
    ensures { IfOk result (λ items. items ≡ map (gate_item kind) all) }
{
    let mut items = Items::new(alloc);
    'gates: for terminals in all.into_vec() {
        items.push(Item::Gate(Gate {
            kind,
            name: terminals.name,
            place: terminals.place,
            args: terminals.args,
        }))?;
    }
    Ok(items)
}

impl<'a> Parser<'a> {
    /// A name, where one comes next.
    fn some_name(&mut self, alloc: Global) -> Result<Option<Named>, Stop>
        ensures { Gives (some_name.read self.old) result self.new }
    {
        if self.sees(Sort::Name) {
            let name = self.name(alloc)?;
            return Ok(Some(name));
        }
        Ok(None)
    }

    /// One gate of a list (IEEE 1364-2005, 7.1).
    fn terminals(&mut self, alloc: Global) -> Result<Terminals, Stop>
        ensures { Gives ((terminals cut).read self.old) result self.new }
    {
        let name = self.some_name(alloc)?;
        let place = self.opened()?;
        let args = self.cut_args(alloc)?;
        self.mark(Sort::RightParenthesis)?;
        Ok(terminals_of(name, place, args))
    }

    /// One or more gates, with commas between.
    fn terminals_list(&mut self, alloc: Global) -> Result<Items<Terminals>, Stop>
        ensures { Gives ((list (is Comma) (terminals cut)).read self.old) result self.new }
    {
        self.list(alloc, Sort::Comma)
    }

    /// Gates of one kind (7.1).
    pub fn gate_items(&mut self, alloc: Global) -> Result<Items<Item>, Stop>
        ensures { Gives ((gate_items cut).read self.old) result self.new }
    {
        let kind = self.gate()?;
        let all = self.terminals_list(alloc)?;
        self.mark(Sort::Semicolon)?;
        let items = gates(alloc, kind, all)?;
        Ok(items)
    }
}

impl Part for Terminals {
    ghost use Rattle.vlog_parse.specs.Items.{terminals};
    ghost use Rattle.vlog_parse.specs.Skipping.{cut};

    ghost reader = { (terminals cut).read };

    fn part(parser: &mut Parser, alloc: Global) -> Result<Terminals, Stop> {
        parser.terminals(alloc)
    }
}
