ghost use Rattle.std.specs.Prelude.{◌≡◌, ◌⊎◌, ℕ, ◌+◌, ◌<◌, ◌^◌, [], ◌∷◌, ◌++◌, ◌==◌, false, take, List, IfOk, OnOk};
ghost use Rattle.vlog_parse.specs.declared.tree.Module.{Module as ModuleOf};
ghost use Rattle.vlog_parse.specs.declared.tree.Item.{Item as ItemOf};
ghost use Rattle.vlog_parse.specs.declared.tree.Item.TheVariants.{Net};
ghost use Rattle.ila_base.specs.declared.refusal.NetRefusal.TheVariants.{Duplicate};
ghost use Rattle.vlog_check.specs.declared.found.Detail.TheVariants.{Alone};
ghost use Rattle.vlog_check.specs.Found.{IsLeastFinding, FindsAmong};
ghost use Rattle.vlog_check.specs.FindingNames.{same_range, is_in_way, port_range, is_declared_again, is_placed_again, FindsSecondPort, FindsSecond};
ghost use Rattle.vlog_check.specs.Names.{IsNames, IsNumbering, IsPast, AreInputs, is_input_at};
ghost use Rattle.vlog_check.specs.Scope.{value_of, directed as directed_of, is_input};
ghost use Rattle.std.specs.Option.{option_map, option_map_or};

use crate::found::{Detail, Found, earlier, keep_earlier};
use crate::table::Table;
use ila_base::{Name, NetRefusal, NoMemory, Place};
use std::alloc::Global;
use vlog_parse::{Decl, Dir, Item, Module, Range};

/// The declaration of a port by its direction.
#[derive(Clone, Copy, Debug)]
pub struct Port {
    pub dir: Dir,
    pub range: Option<Range>,
}

/// What the names of a module stand for.
#[derive(Drop)]
pub struct Names<'a> {
    pub module: &'a Module,
    /// The number of each name of the header.
    pub ports: Table<'a, usize>,
    /// The range of each declared name, that of its first declaration.
    pub ranges: Table<'a, Option<Range>>,
    /// The first declaration of each port by a direction.
    pub directed: Table<'a, Port>,
    /// The first places of the inputs in the header, in order.
    pub inputs: Vec<usize>,
}

/// What some items of a module say of its names.
#[derive(Drop)]
pub struct Past<'a> {
    pub ranges: Table<'a, Option<Range>>,
    pub directed: Table<'a, Port>,
    /// The ranges of what is declared by `wire`.
    pub wired: Table<'a, Option<Range>>,
    /// The places of gates and instances.
    pub placed: Table<'a, Place>,
}

fn same_range(one: Option<Range>, other: Option<Range>) -> bool
    ensures { result ≡ same_range one other }
{
    match one {
        None => other.is_none(),
        Some(q) => match other {
            None => false,
            Some(r) => q.left == r.left && q.right == r.right,
        },
    }
}

// Whether a declaration is in the way of one of this range, which is made in the other way.
fn is_in_way(port: bool, declared: Option<Option<Range>>, range: Option<Range>) -> bool
    ensures { result ≡ is_in_way port declared range }
{
    match declared {
        None => false,
        Some(other) => !(port && same_range(other, range)),
    }
}

fn port_range(port: Option<Port>) -> Option<Option<Range>>
    ensures { result ≡ port_range port }
{
    match port {
        None => None,
        Some(port) => Some(port.range),
    }
}

impl<'a> Past<'a> {
    fn new(alloc: Global) -> Past<'a>
        ensures { IsPast result [] }
    {
        Past {
            ranges: Table::new(alloc),
            directed: Table::new(alloc),
            wired: Table::new(alloc),
            placed: Table::new(alloc),
        }
    }

    fn declare(&mut self, d: &'a Decl) -> Result<(), NoMemory>
        ensures { OnOk result ((items : List ItemOf) → IsPast self.old items → IsPast self.new (items ++ Net d.now ∷ [])) }
    {
        self.ranges.put(d.name.bytes(), d.range)?;
        match d.dir {
            Some(dir) => {
                let port = Port {
                    dir,
                    range: d.range,
                };
                self.directed.put(d.name.bytes(), port)?;
            }
            None => self.wired.put(d.name.bytes(), d.range)?,
        }
        Ok(())
    }

    // Adds an item behind the others.
    fn add(&mut self, item: &'a Item) -> Result<(), NoMemory>
        ensures { OnOk result ((items : List ItemOf) → IsPast self.old items → IsPast self.new (items ++ item.now ∷ [])) }
    {
        match item {
            Item::Net(d) => {
                self.declare(d)?;
                Ok(())
            }
            Item::Assign(_, _) => Ok(()),
            Item::Gate(g) => match &g.name {
                None => Ok(()),
                Some(name) => {
                    self.placed.put(name.bytes(), g.place)?;
                    Ok(())
                }
            },
            Item::Inst(i) => {
                self.placed.put(i.name.bytes(), i.place)?;
                Ok(())
            }
        }
    }

    // Whether a declaration can't stand behind these items.
    fn is_declared_again(&self, ports: &Table<usize>, d: &Decl) -> bool
        ensures { (m : ModuleOf) (items : List ItemOf) → IsNumbering ports.now m.ports → IsPast self.now items → result ≡ is_declared_again m items d.now }
    {
        let name = d.name.bytes();
        let port = ports.get(name).is_some();
        if self.placed.get(name).is_some() {
            return true;
        }
        if d.dir.is_some() {
            self.directed.get(name).is_some() || is_in_way(port, self.wired.get(name), d.range)
        } else {
            self.wired.get(name).is_some()
                || is_in_way(port, port_range(self.directed.get(name)), d.range)
        }
    }

    // Whether a gate's or an instance's name can't stand behind these items.
    fn is_placed_again(&self, ports: &Table<usize>, name: &Name) -> bool
        ensures { (m : ModuleOf) (items : List ItemOf) → IsNumbering ports.now m.ports → IsPast self.now items → result ≡ is_placed_again m items name.now }
    {
        let name = name.bytes();
        ports.get(name).is_some()
            || self.ranges.get(name).is_some()
            || self.placed.get(name).is_some()
    }
}

/// The finding on a name that is given twice.
pub fn duplicate(alloc: Global, place: Place, subject: u64, name: &Name) -> Result<Found, NoMemory>
    ensures { IfOk result (λ f. f ≡ record { place = place; subject = subject; detail = Alone; refusal = Duplicate name.now }) }
{
    let name = name.copied(alloc)?;
    Ok(Found {
        place,
        subject,
        detail: Detail::Alone,
        refusal: NetRefusal::Duplicate(name),
    })
}

// The finding on a name of the header that stands there before.
fn second_port(
    alloc: Global,
    m: &Module,
    ports: &Table<usize>,
    k: usize,
    name: &Name,
) -> Result<Option<Found>, NoMemory>
    requires few { k + 1 < 2 ^ 64 }
    requires numbering { IsNumbering ports.now (take k m.now.ports) }
    ensures { IfOk result (IsLeastFinding (FindsSecondPort m.now k name.now)) }
{
    if ports.get(name.bytes()).is_some() {
        let found = duplicate(alloc, m.place, k as u64 + 1, name)?;
        return Ok(Some(found));
    }
    Ok(None)
}

// The numbers of the names of a module's header, and the first name that stands there before.
fn read_header<'a>(
    alloc: Global,
    m: &'a Module,
) -> Result<(Table<'a, usize>, Option<Found>), NoMemory>
    ensures numbers { IfOk result (λ r. IsNumbering r.0 m.now.ports) }
    ensures least { IfOk result (λ r. IsLeastFinding (FindsAmong (FindsSecondPort m.now) m.now.ports) r.1) }
{
    let mut numbers = Table::new(alloc);
    let mut best = None;
    for (k, name) in m.ports.as_slice().iter().enumerate() {
        let found = second_port(alloc, m, &numbers, k, name)?;
        keep_earlier(&mut best, found);
        numbers.put(name.bytes(), k)?;
    }
    Ok((numbers, best))
}

// The finding on an item whose name was given before.
fn second_item(
    alloc: Global,
    ports: &Table<usize>,
    past: &Past,
    item: &Item,
) -> Result<Option<Found>, NoMemory>
    ensures { IfOk result (λ found. (m : ModuleOf) (k : ℕ) → IsNumbering ports.now m.ports → IsPast past.now (take k m.items) → IsLeastFinding (FindsSecond m k item.now) found) }
{
    match item {
        Item::Net(d) => {
            if past.is_declared_again(ports, d) {
                let found = duplicate(alloc, d.place, 0, &d.name)?;
                return Ok(Some(found));
            }
            Ok(None)
        }
        Item::Assign(_, _) => Ok(None),
        Item::Gate(g) => match &g.name {
            None => Ok(None),
            Some(name) => {
                if past.is_placed_again(ports, name) {
                    let found = duplicate(alloc, g.place, 0, name)?;
                    return Ok(Some(found));
                }
                Ok(None)
            }
        },
        Item::Inst(i) => {
            if past.is_placed_again(ports, &i.name) {
                let found = duplicate(alloc, i.place, 0, &i.name)?;
                return Ok(Some(found));
            }
            Ok(None)
        }
    }
}

// What the items of a module say of its names, and the first whose name was given before.
fn read_items<'a>(
    alloc: Global,
    m: &'a Module,
    ports: &Table<usize>,
) -> Result<(Past<'a>, Option<Found>), NoMemory>
    requires { IsNumbering ports.now m.now.ports }
    ensures past { IfOk result (λ r. IsPast r.0 m.now.items) }
    ensures least { IfOk result (λ r. IsLeastFinding (FindsAmong (FindsSecond m.now) m.now.items) r.1) }
{
    let mut past = Past::new(alloc);
    let mut best = None;
    for item in m.items.as_slice() {
        let found = second_item(alloc, ports, &past, item)?;
        keep_earlier(&mut best, found);
        past.add(item)?;
    }
    Ok((past, best))
}

fn is_input(port: Option<Port>) -> bool
    ensures { result ≡ is_input (option_map (λ p. p.dir) port) }
{
    match port {
        None => false,
        Some(port) => port.dir == Dir::Input,
    }
}

fn is_place(first: Option<usize>, k: usize) -> bool
    ensures { result ≡ option_map_or (λ n. n == k) first false }
{
    match first {
        None => false,
        Some(n) => n == k,
    }
}

// Whether a name of the header is that of an input, and this is its first place.
fn is_input_at(ports: &Table<usize>, directed: &Table<Port>, k: usize, name: &[u8]) -> bool
    ensures { (m : ModuleOf) → IsNumbering ports.now m.ports → ((other : List ℕ) → value_of directed.now other ≡ value_of (directed_of m.items) other) → result ≡ is_input_at m k name.now }
{
    is_input(directed.get(name)) && is_place(ports.get(name), k)
}

// The first places of the inputs in the header.
fn read_inputs(
    alloc: Global,
    m: &Module,
    ports: &Table<usize>,
    directed: &Table<Port>,
) -> Result<Vec<usize>, NoMemory>
    requires ports { IsNumbering ports.now m.now.ports }
    requires directed { (name : List ℕ) → value_of directed.now name ≡ value_of (directed_of m.now.items) name }
    ensures { IfOk result (λ places. AreInputs m.now places.items) }
{
    let mut places = Vec::new(alloc);
    for (k, name) in m.ports.as_slice().iter().enumerate() {
        if is_input_at(ports, directed, k, name.bytes()) {
            places.push(k)?;
        }
    }
    Ok(places)
}

/// What the names of a module stand for, and the first that is given twice.
pub fn read_names<'a>(alloc: Global, m: &'a Module) -> Result<(Names<'a>, Option<Found>), NoMemory>
    ensures names { IfOk result (λ r. IsNames r.0) }
    ensures own { IfOk result (λ r. r.0.module.now ≡ m.now) }
    ensures least { IfOk result (λ r. IsLeastFinding (λ f. FindsAmong (FindsSecondPort m.now) m.now.ports f ⊎ FindsAmong (FindsSecond m.now) m.now.items f) r.1) }
{
    let (ports, first) = read_header(alloc, m)?;
    let (past, second) = read_items(alloc, m, &ports)?;
    let Past {
        ranges,
        directed,
        wired: _,
        placed: _,
    } = past;
    let inputs = read_inputs(alloc, m, &ports, &directed)?;
    let names = Names {
        module: m,
        ports,
        ranges,
        directed,
        inputs,
    };
    Ok((names, earlier(first, second)))
}
