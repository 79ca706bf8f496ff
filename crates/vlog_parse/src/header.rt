ghost use Rattle.std.specs.Prelude.{◌≡◌, map, ◌∷◌, IfOk};
ghost use Rattle.grammar.specs.Rule.{repeat};
ghost use Rattle.vlog_parse.specs.declared.sort.Sort.TheVariants.{Comma};
ghost use Rattle.vlog_parse.specs.declared.tree.Decl.{Decl as DeclOf};
ghost use Rattle.vlog_parse.specs.Expressions.{is};
ghost use Rattle.vlog_parse.specs.Design.{ansi, ansi_part, bare_part, next_part, declared_behind, carried, ansi_header, ansi_ports, named_name, plain_ports, some_ports, ports_list, header};
ghost use Rattle.grammar.specs.Giving.{Gives};

use crate::list::{Part, Repeated};
use crate::parser::Parser;
use crate::parts::{Header, Named, PortPart};
use crate::sort::Sort;
use crate::tree::{Decl, Dir, Item, Range};
use grammar::Stop;
use ila_base::{Items, Name, NoMemory};
use std::alloc::Global;

/// The declaration that a port of an ANSI header is behind one of the direction and the range.
fn declared_behind(dir: Option<Dir>, range: Option<Range>, part: PortPart) -> Decl
    ensures { (before : DeclOf) → before.dir ≡ dir → before.range ≡ range → result ≡ declared_behind before part }
{
    match part {
        PortPart::Declared(decl) => decl,
        PortPart::Bare(named) => Decl {
            name: named.name,
            place: named.place,
            dir,
            range,
        },
    }
}

/// The ports of an ANSI header (IEEE 1364-2005, 12.3.4).
fn ansi_header(alloc: Global, first: Decl, more: Items<PortPart>) -> Result<Header, NoMemory>
    ensures { IfOk result (λ header. header ≡ ansi_header (first ∷ carried first more)) }
{
    let mut dir = first.dir;
    let mut range = first.range;
    let mut names = Items::new(alloc);
    let mut items = Items::new(alloc);
    names.push(first.name.copied(alloc)?)?;
    items.push(Item::Net(first))?;
    'parts: for part in more.into_vec() {
        let decl = declared_behind(dir, range, part);
        dir = decl.dir;
        range = decl.range;
        names.push(decl.name.copied(alloc)?)?;
        items.push(Item::Net(decl))?;
    }
    Ok(Header { names, items })
}

/// The names without their places.
fn names_of(alloc: Global, all: Items<Named>) -> Result<Items<Name>, NoMemory>
    ensures { IfOk result (λ names. names ≡ map named_name all) }
{
    let mut names = Items::new(alloc);
    'names: for named in all.into_vec() {
        names.push(named.name)?;
    }
    Ok(names)
}

impl<'a> Parser<'a> {
    /// The declaration of a port in an ANSI header.
    fn ansi(&mut self, alloc: Global) -> Result<Decl, Stop>
        ensures { Gives (ansi.read self.old) result self.new }
    {
        let dir = self.direction()?;
        self.some_wire()?;
        let range = self.some_range()?;
        let named = self.name(alloc)?;
        Ok(Decl {
            name: named.name,
            place: named.place,
            dir: Some(dir),
            range,
        })
    }

    /// A port of an ANSI header behind the first one, from its comma on.
    fn next_part(&mut self, alloc: Global) -> Result<PortPart, Stop>
        ensures { Gives (next_part.read self.old) result self.new }
    {
        self.mark(Sort::Comma)?;
        if self.sees_direction() {
            let decl = self.ansi(alloc)?;
            return Ok(PortPart::Declared(decl));
        }
        let named = self.name(alloc)?;
        Ok(PortPart::Bare(named))
    }

    /// The ports of an ANSI header behind the first one.
    fn next_parts(&mut self, alloc: Global) -> Result<Items<PortPart>, Stop>
        ensures { Gives ((repeat (is Comma) next_part).read self.old) result self.new }
    {
        self.repeat(alloc)
    }

    /// The ports of an ANSI header (12.3.4).
    fn ansi_ports(&mut self, alloc: Global) -> Result<Header, Stop>
        ensures { Gives (ansi_ports.read self.old) result self.new }
    {
        let first = self.ansi(alloc)?;
        let more = self.next_parts(alloc)?;
        let header = ansi_header(alloc, first, more)?;
        Ok(header)
    }

    /// The ports of a header that declares none of them (12.3.2).
    fn plain_ports(&mut self, alloc: Global) -> Result<Header, Stop>
        ensures { Gives (plain_ports.read self.old) result self.new }
    {
        let all = self.names(alloc)?;
        let names = names_of(alloc, all)?;
        Ok(Header {
            names,
            items: Items::new(alloc),
        })
    }

    /// The ports in the parentheses, if there are any.
    fn some_ports(&mut self, alloc: Global) -> Result<Header, Stop>
        ensures { Gives (some_ports.read self.old) result self.new }
    {
        if self.sees_direction() {
            return self.ansi_ports(alloc);
        }
        if self.sees(Sort::Name) {
            return self.plain_ports(alloc);
        }
        Ok(Header {
            names: Items::new(alloc),
            items: Items::new(alloc),
        })
    }

    /// The ports with their parentheses.
    fn ports_list(&mut self, alloc: Global) -> Result<Header, Stop>
        ensures { Gives (ports_list.read self.old) result self.new }
    {
        self.mark(Sort::LeftParenthesis)?;
        let header = self.some_ports(alloc)?;
        self.mark(Sort::RightParenthesis)?;
        Ok(header)
    }

    /// The ports of a module, where they come next (12.3.1).
    pub fn header(&mut self, alloc: Global) -> Result<Header, Stop>
        ensures { Gives (header.read self.old) result self.new }
    {
        if self.sees(Sort::LeftParenthesis) {
            return self.ports_list(alloc);
        }
        Ok(Header {
            names: Items::new(alloc),
            items: Items::new(alloc),
        })
    }
}

impl Part for PortPart {
    ghost use Rattle.vlog_parse.specs.Design.{next_part};

    ghost reader = { next_part.read };

    fn part(parser: &mut Parser, alloc: Global) -> Result<PortPart, Stop> {
        parser.next_part(alloc)
    }
}

impl Repeated for PortPart {
    ghost use Rattle.vlog_parse.specs.declared.sort.Sort.TheVariants.{Comma};
    ghost use Rattle.vlog_parse.specs.Expressions.{is};

    ghost opens = { is Comma };

    fn is_next(parser: &Parser) -> bool {
        parser.sees(Sort::Comma)
    }
}
