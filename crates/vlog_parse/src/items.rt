ghost use Rattle.std.specs.Prelude.{◌≡◌, map, Some, None, IfOk};
ghost use Rattle.grammar.specs.Rule.{list};
ghost use Rattle.vlog_parse.specs.declared.sort.Sort.TheVariants.{Comma};
ghost use Rattle.vlog_parse.specs.Expressions.{is, name};
ghost use Rattle.vlog_parse.specs.Items.{some_wire, some_range, net_of, port_items, net_items, pair, assign_items, item};
ghost use Rattle.grammar.specs.Giving.{Gives};
ghost use Rattle.vlog_parse.specs.Skipping.{cut};

use crate::list::Part;
use crate::parser::Parser;
use crate::parts::Named;
use crate::sort::Sort;
use crate::tree::{Decl, Dir, Item, Range};
use grammar::Stop;
use ila_base::{Items, NoMemory};
use std::alloc::Global;

/// The declarations of the names.
fn nets(
    alloc: Global,
    dir: Option<Dir>,
    range: Option<Range>,
    names: Items<Named>,
) -> Result<Items<Item>, NoMemory>
    ensures { IfOk result (λ items. items ≡ map (net_of dir range) names) }
{
    let mut items = Items::new(alloc);
    'names: for named in names.into_vec() {
        items.push(Item::Net(Decl {
            name: named.name,
            place: named.place,
            dir,
            range,
        }))?;
    }
    Ok(items)
}

impl<'a> Parser<'a> {
    /// The keyword `wire`, where it comes next.
    pub fn some_wire(&mut self) -> Result<Option<()>, Stop>
        ensures { Gives (some_wire.read self.old) result self.new }
    {
        if self.sees(Sort::Wire) {
            self.mark(Sort::Wire)?;
            return Ok(Some(()));
        }
        Ok(None)
    }

    /// A range, where one comes next.
    pub fn some_range(&mut self) -> Result<Option<Range>, Stop>
        ensures { Gives (some_range.read self.old) result self.new }
    {
        if self.sees(Sort::LeftBracket) {
            let range = self.range()?;
            return Ok(Some(range));
        }
        Ok(None)
    }

    /// One or more names, with commas between.
    #[tactic(auto, using(crate::proofs::PartLaws::name_keeps))]
    pub fn names(&mut self, alloc: Global) -> Result<Items<Named>, Stop>
        ensures { Gives ((list (is Comma) name).read self.old) result self.new }
    {
        self.list(alloc, Sort::Comma)
    }

    /// The declaration of ports (IEEE 1364-2005, 12.3.3).
    fn port_items(&mut self, alloc: Global) -> Result<Items<Item>, Stop>
        ensures { Gives (port_items.read self.old) result self.new }
    {
        let dir = self.direction()?;
        self.some_wire()?;
        let range = self.some_range()?;
        let names = self.names(alloc)?;
        self.mark(Sort::Semicolon)?;
        let items = nets(alloc, Some(dir), range, names)?;
        Ok(items)
    }

    /// The declaration of nets (4.2).
    fn net_items(&mut self, alloc: Global) -> Result<Items<Item>, Stop>
        ensures { Gives (net_items.read self.old) result self.new }
    {
        self.mark(Sort::Wire)?;
        let range = self.some_range()?;
        let names = self.names(alloc)?;
        self.mark(Sort::Semicolon)?;
        let items = nets(alloc, None, range, names)?;
        Ok(items)
    }

    /// An assignment (6.1): its target and its value.
    fn pair(&mut self, alloc: Global) -> Result<Item, Stop>
        ensures { Gives ((pair cut).read self.old) result self.new }
    {
        let target = self.cut(alloc)?;
        self.mark(Sort::Equals)?;
        let value = self.cut(alloc)?;
        Ok(Item::Assign(target, value))
    }

    /// One or more assignments, with commas between.
    #[tactic(auto, using(crate::proofs::PartLaws::pair_keeps))]
    fn pairs(&mut self, alloc: Global) -> Result<Items<Item>, Stop>
        ensures { Gives ((list (is Comma) (pair cut)).read self.old) result self.new }
    {
        self.list(alloc, Sort::Comma)
    }

    /// Continuous assignments (6.1).
    fn assign_items(&mut self, alloc: Global) -> Result<Items<Item>, Stop>
        ensures { Gives ((assign_items cut).read self.old) result self.new }
    {
        self.mark(Sort::Assign)?;
        let pairs = self.pairs(alloc)?;
        self.mark(Sort::Semicolon)?;
        Ok(pairs)
    }

    /// What one item of a module stands for.
    pub fn item(&mut self, alloc: Global) -> Result<Items<Item>, Stop>
        ensures { Gives ((item cut).read self.old) result self.new }
    {
        if self.sees_direction() {
            return self.port_items(alloc);
        }
        if self.sees(Sort::Wire) {
            return self.net_items(alloc);
        }
        if self.sees(Sort::Assign) {
            return self.assign_items(alloc);
        }
        if self.sees_gate() {
            return self.gate_items(alloc);
        }
        self.inst_items(alloc)
    }
}

impl Part for Named {
    ghost use Rattle.vlog_parse.specs.Expressions.{name};

    ghost reader = { name.read };

    fn part(parser: &mut Parser, alloc: Global) -> Result<Named, Stop> {
        parser.name(alloc)
    }
}

/// One assignment of a list.
impl Part for Item {
    ghost use Rattle.vlog_parse.specs.Items.{pair};
    ghost use Rattle.vlog_parse.specs.Skipping.{cut};

    ghost reader = { (pair cut).read };

    fn part(parser: &mut Parser, alloc: Global) -> Result<Item, Stop> {
        parser.pair(alloc)
    }
}
