ghost use Rattle.std.specs.Prelude.{◌≡◌};
ghost use Rattle.vlog_check.specs.Found.{key_of, number_of, is_later, earlier};

use ila_base::{NetFault, NetRefusal, Place};
use std::cmp::Ordering;

/// What a finding counts by among those of its number at its place, in this order.
#[derive(Clone, Copy, Debug)]
pub enum Detail {
    /// No other finding of its number is there.
    Alone,
    /// The parameter with this number, as written, from 0.
    Parameter(u64),
    /// The connection with this number, as written, from 0.
    Connection(u64),
    /// A parameter that isn't given, by its number among those that must be.
    NoParameter(u64),
    /// A pin that isn't given, by its number in the cell table or the header.
    NoPin(u64),
}

/// A finding: why the netlist is refused, and what it counts by among all findings.
#[derive(Debug, Drop)]
pub struct Found {
    pub place: Place,
    /// At a module's place: 0 for the module's own name, and `k + 1` for name `k` of its header.
    /// Elsewhere 0.
    pub subject: u64,
    pub detail: Detail,
    pub refusal: NetRefusal,
}

impl Found {
    // What the finding counts by: its place, its subject, its number, and its detail.
    fn key(&self) -> [u64; 6]
        ensures { result ≡ key_of self.now }
    {
        let (part, at) = match self.detail {
            Detail::Alone => (0, 0),
            Detail::Parameter(at) => (1, at),
            Detail::Connection(at) => (2, at),
            Detail::NoParameter(at) => (3, at),
            Detail::NoPin(at) => (4, at),
        };
        let line = self.place.line as u64;
        let col = self.place.col as u64;
        let number = number_of(&self.refusal);
        [line, col, self.subject, number, part, at]
    }

    /// What the finding says of the netlist.
    pub fn fault(self) -> NetFault
        ensures { result ≡ record { refusal = self.refusal; place = self.place } }
    {
        let Found {
            place,
            subject: _,
            detail: _,
            refusal,
        } = self;
        NetFault { refusal, place }
    }

    // Whether the finding counts behind another.
    fn is_later(&self, other: &Found) -> bool
        ensures { result ≡ is_later self.now other.now }
    {
        let own = self.key();
        let others = other.key();
        own.as_slice().cmp(&others.as_slice()) == Ordering::Greater
    }
}

// The number of a refusal among those of this crate, and 0 for the others.
fn number_of(refusal: &NetRefusal) -> u64
    ensures { result ≡ number_of refusal.now }
{
    match refusal {
        NetRefusal::Duplicate(_) => 4,
        NetRefusal::Undeclared(_) => 5,
        NetRefusal::UnknownModule(_) => 6,
        NetRefusal::Pin(_) => 7,
        NetRefusal::Width { .. } => 8,
        NetRefusal::OpenInput(_) => 9,
        _ => 0,
    }
}

/// Keeps the first of two findings. Where there is no second one nothing is moved.
pub fn keep_earlier(best: &mut Option<Found>, found: Option<Found>)
    ensures { best.new ≡ earlier best.old found }
{
    if found.is_some() {
        let first = best.take();
        *best = earlier(first, found);
    }
}

/// The first of two findings.
pub fn earlier(best: Option<Found>, found: Option<Found>) -> Option<Found>
    ensures { result ≡ earlier best found }
{
    match best {
        None => found,
        Some(first) => match found {
            None => Some(first),
            Some(second) => {
                if first.is_later(&second) {
                    Some(second)
                } else {
                    Some(first)
                }
            }
        },
    }
}
