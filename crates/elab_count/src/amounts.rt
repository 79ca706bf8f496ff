ghost use Rattle.std.specs.Prelude.{◌≡◌, ℕ, ◌+◌, ◌*◌, ◌<◌, ◌^◌};
ghost use Rattle.elab_design.specs.Limits.{carried};
ghost use Rattle.elab_count.specs.Counting as counting;
ghost use Rattle.elab_count.specs.declared.amounts.Count.{Count as CountOf};

use ila_base::limits::GREATEST_COUNT;

/// What a module has, with all that is below it. Each number counts up to `GREATEST_COUNT`.
#[derive(Clone, Copy, Debug, PartialEq, Eq)]
pub struct Count {
    /// How many instance names the longest path below the module has.
    pub depth: u64,
    /// Gates, instances of cells, and one for each bit of an assign or of a port's connection.
    pub cells: u64,
    /// The pins of the cells, open ones and clocks too.
    pub pins: u64,
    pub nets: u64,
    /// The flat identifiers: of nets, gates and instances of cells.
    pub names: u64,
    /// The bytes of these, from the module on.
    pub bytes: u64,
}

fn plus(a: u64, b: u64) -> u64
    ensures { result ≡ carried (a + b) }
{
    a.saturating_add(b).min(GREATEST_COUNT)
}

impl Count {
    /// The count of nothing.
    pub const ZERO: Count = Count {
        depth: 0,
        cells: 0,
        pins: 0,
        nets: 0,
        names: 0,
        bytes: 0,
    };

    /// Cells with so many pins in all.
    pub fn of_cells(cells: u64, pins: u64) -> Count
        ensures { result ≡ counting.capped (counting.cells_count cells pins) }
    {
        Count {
            cells: plus(cells, 0),
            pins: plus(pins, 0),
            ..Count::ZERO
        }
    }

    /// A net of so many bits with an identifier of so many bytes.
    pub fn of_net(bits: u64, length: usize) -> Count
        ensures { result ≡ counting.capped (record counting.nothing { nets = bits; names = 1; bytes = length }) }
    {
        Count {
            nets: plus(bits, 0),
            names: 1,
            bytes: plus(length as u64, 0),
            ..Count::ZERO
        }
    }

    /// The count of a cell with an identifier of so many bytes.
    pub fn named(self, length: usize) -> Count
        ensures { (c : CountOf) → self ≡ counting.capped c → result ≡ counting.capped (counting.with_name length c) }
    {
        Count {
            names: plus(self.names, 1),
            bytes: plus(self.bytes, length as u64),
            ..self
        }
    }

    /// Both together.
    pub fn with(self, other: Count) -> Count
        ensures { (a b : CountOf) → self ≡ counting.capped a → other ≡ counting.capped b → result ≡ counting.capped (counting.together a b) }
    {
        Count {
            depth: self.depth.max(other.depth),
            cells: plus(self.cells, other.cells),
            pins: plus(self.pins, other.pins),
            nets: plus(self.nets, other.nets),
            names: plus(self.names, other.names),
            bytes: plus(self.bytes, other.bytes),
        }
    }

    /// The same seen from outside an instance with a name of so many bytes, which stands with a slash
    /// before each identifier.
    pub fn behind(self, length: usize) -> Count
        requires { length + 1 < 2 ^ 64 }
        ensures { (c : CountOf) → self ≡ counting.capped c → result ≡ counting.capped (counting.behind length c) }
    {
        let before = self.names.saturating_mul(length as u64 + 1);
        Count {
            depth: plus(self.depth, 1),
            bytes: plus(self.bytes, before),
            ..self
        }
    }
}

/// What the modules of a tree count, by their numbers: the top and those below it.
#[derive(Drop)]
pub struct Counts {
    pub table: Vec<Option<Count>>,
}
