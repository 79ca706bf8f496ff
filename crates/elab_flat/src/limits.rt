//! The limits on how large a design is.

ghost use Rattle.std.specs.Prelude.{◌≡◌, Some};
ghost use Rattle.elab_flat.specs.Above.{IsFirstAbove};

use elab_count::Count;
use ila_base::LimitKind;
use ila_base::limits::{ALL_NAME_BYTES, CELLS, DEPTH, NETS, PINS};

/// A number that is above the limit of its kind.
#[derive(Clone, Copy, Debug, PartialEq, Eq)]
pub struct Above {
    pub kind: LimitKind,
    pub amount: u64,
}

/// The first number of a count that is above its limit: more than `DEPTH` instance names on a path,
/// `CELLS` cells, `PINS` pins, `NETS` net bits, or `ALL_NAME_BYTES` bytes of identifiers.
#[tactic(auto, using(crate::proofs::AboveLaws::pins_first, crate::proofs::AboveLaws::nets_first, crate::proofs::AboveLaws::bytes_first))]
pub fn first_above(count: Count) -> Option<Above>
    ensures { IsFirstAbove count result }
{
    if count.depth > DEPTH {
        return over(LimitKind::Depth, count.depth);
    }
    if count.cells > CELLS {
        return over(LimitKind::Cells, count.cells);
    }
    if count.pins > PINS {
        return over(LimitKind::Pins, count.pins);
    }
    if count.nets > NETS {
        return over(LimitKind::Nets, count.nets);
    }
    if count.bytes > ALL_NAME_BYTES {
        return over(LimitKind::AllNames, count.bytes);
    }
    None
}

fn over(kind: LimitKind, amount: u64) -> Option<Above>
    ensures { result ≡ Some (record { kind = kind; amount = amount }) }
{
    Some(Above { kind, amount })
}
