ghost use Rattle.std.specs.Prelude.{◌≡◌, map, IfOk};
ghost use Rattle.grammar.specs.Rule.{list};
ghost use Rattle.vlog_parse.specs.declared.sort.Sort.TheVariants.{Comma};
ghost use Rattle.vlog_parse.specs.Expressions.{is};
ghost use Rattle.vlog_parse.specs.Items.{some_expr, conn, conns_by_name, conns_by_place, conns, linked, inst_item, inst_items};
ghost use Rattle.grammar.specs.Giving.{Gives};
ghost use Rattle.vlog_parse.specs.Skipping.{cut};

use crate::list::Part;
use crate::params::copied;
use crate::parser::Parser;
use crate::parts::{Linked, Named};
use crate::sort::Sort;
use crate::tree::{Conns, Expr, Inst, Item, Value};
use grammar::Stop;
use ila_base::{Items, Name, NoMemory};
use std::alloc::Global;

/// The instances of a module or cell, each with the parameters.
fn instances(
    alloc: Global,
    cell: &Named,
    found: &Items<(Name, Value)>,
    all: Items<Linked>,
) -> Result<Items<Item>, NoMemory>
    ensures { IfOk result (λ items. items ≡ map (inst_item cell.now found.now) all) }
{
    let mut items = Items::new(alloc);
    'insts: for linked in all.into_vec() {
        let module = cell.name.copied(alloc)?;
        let params = copied(alloc, found)?;
        items.push(Item::Inst(Inst {
            module,
            name: linked.name,
            place: linked.place,
            params,
            conns: linked.conns,
        }))?;
    }
    Ok(items)
}

impl<'a> Parser<'a> {
    /// An expression, where one comes next.
    fn some_expr(&mut self, alloc: Global) -> Result<Option<Expr>, Stop>
        ensures { Gives ((some_expr cut).read self.old) result self.new }
    {
        if self.sees_expr() {
            let expr = self.cut(alloc)?;
            return Ok(Some(expr));
        }
        Ok(None)
    }

    /// A connection by the pin's name (IEEE 1364-2005, 12.3.6).
    fn conn(&mut self, alloc: Global) -> Result<(Name, Option<Expr>), Stop>
        ensures { Gives ((conn cut).read self.old) result self.new }
    {
        self.mark(Sort::Dot)?;
        let name = self.name(alloc)?;
        self.mark(Sort::LeftParenthesis)?;
        let expr = self.some_expr(alloc)?;
        self.mark(Sort::RightParenthesis)?;
        Ok((name.name, expr))
    }

    /// One or more connections by name, with commas between.
    fn conn_list(&mut self, alloc: Global) -> Result<Items<(Name, Option<Expr>)>, Stop>
        ensures { Gives ((list (is Comma) (conn cut)).read self.old) result self.new }
    {
        self.list(alloc, Sort::Comma)
    }

    /// The connections of an instance (12.3.5, 12.3.6).
    fn conns(&mut self, alloc: Global) -> Result<Conns, Stop>
        ensures { Gives ((conns cut).read self.old) result self.new }
    {
        if self.sees(Sort::Dot) {
            let pins = self.conn_list(alloc)?;
            return Ok(Conns::ByName(pins));
        }
        if self.sees_expr() {
            let pins = self.cut_args(alloc)?;
            return Ok(Conns::ByPlace(pins));
        }
        Ok(Conns::ByName(Items::new(alloc)))
    }

    /// One instance of a list (12.1.2).
    fn linked(&mut self, alloc: Global) -> Result<Linked, Stop>
        ensures { Gives ((linked cut).read self.old) result self.new }
    {
        let name = self.name(alloc)?;
        self.mark(Sort::LeftParenthesis)?;
        let conns = self.conns(alloc)?;
        self.mark(Sort::RightParenthesis)?;
        Ok(Linked {
            name: name.name,
            place: name.place,
            conns,
        })
    }

    /// One or more instances, with commas between.
    fn linked_list(&mut self, alloc: Global) -> Result<Items<Linked>, Stop>
        ensures { Gives ((list (is Comma) (linked cut)).read self.old) result self.new }
    {
        self.list(alloc, Sort::Comma)
    }

    /// Instances of one module or cell (12.1.2).
    pub fn inst_items(&mut self, alloc: Global) -> Result<Items<Item>, Stop>
        ensures { Gives ((inst_items cut).read self.old) result self.new }
    {
        let cell = self.name(alloc)?;
        let found = self.params(alloc)?;
        let all = self.linked_list(alloc)?;
        self.mark(Sort::Semicolon)?;
        let items = instances(alloc, &cell, &found, all)?;
        Ok(items)
    }
}

impl Part for (Name, Option<Expr>) {
    ghost use Rattle.vlog_parse.specs.Items.{conn};
    ghost use Rattle.vlog_parse.specs.Skipping.{cut};

    ghost reader = { (conn cut).read };

    fn part(parser: &mut Parser, alloc: Global) -> Result<(Name, Option<Expr>), Stop> {
        parser.conn(alloc)
    }
}

impl Part for Linked {
    ghost use Rattle.vlog_parse.specs.Items.{linked};
    ghost use Rattle.vlog_parse.specs.Skipping.{cut};

    ghost reader = { (linked cut).read };

    fn part(parser: &mut Parser, alloc: Global) -> Result<Linked, Stop> {
        parser.linked(alloc)
    }
}
