//! When conditions are true.

ghost use Rattle.std.specs.Prelude.{◌≡◌, true, slice_index};
ghost use Rattle.ila_base.specs.Comparison as comparison;
ghost use Rattle.tsm_check.specs.Truth.{OfProbe, OfCounter, truth, is_met, cond_true};
ghost use Rattle.tsm_check.specs.Validity.{is_short, passes};

use crate::types::{Cond, CounterTest, Formula};
use ila_base::{Compare, Op};

// Whether two whole numbers are in the operator's relation.
fn compares(op: Op, a: u16, b: u16) -> bool
    ensures { result ≡ comparison.compares op a b }
{
    match op {
        Op::Eq => a == b,
        Op::Ne => a != b,
        Op::Lt => a < b,
        Op::Le => a <= b,
        Op::Gt => a > b,
        Op::Ge => a >= b,
    }
}

impl CounterTest {
    // Whether the counter is in the operator's relation to the value.
    fn is_met(&self, counters: &[u16]) -> bool
        ensures { result ≡ comparison.compares self.now.op (slice_index counters.now self.now.counter) self.now.value }
    {
        let counter = self.counter as usize;
        compares(
            self.op,
            counters.get(counter).copied().unwrap_or(0),
            self.value,
        )
    }
}

// Whether the comparison is true of its probe's values.
fn is_true(compare: &Compare, before: &[u128], now: &[u128]) -> bool
    requires { is_short (OfProbe compare.now) ≡ true }
    ensures { result ≡ comparison.is_true before.now now.now compare.now }
{
    let probe = compare.probe as usize;
    compare.holds(
        before.get(probe).copied().unwrap_or(0),
        now.get(probe).copied().unwrap_or(0),
    )
}

impl Formula {
    // Whether the formula is true. It recurses as deep as formulas are nested.
    fn is_true(&self, before: &[u128], now: &[u128], counters: &[u16]) -> bool
        requires { passes is_short self.now ≡ true }
        ensures { result ≡ truth (is_met before.now now.now counters.now) self.now }
    {
        match self {
            Formula::Probe(compare) => is_true(compare, before, now),
            Formula::Counter(test) => test.is_met(counters),
            Formula::All(parts) => {
                for part in parts.as_slice() {
                    if !part.is_true(before, now, counters) {
                        return false;
                    }
                }
                true
            }
            Formula::Any(choices) => {
                for choice in choices.as_slice() {
                    if choice.is_true(before, now, counters) {
                        return true;
                    }
                }
                false
            }
        }
    }
}

impl Cond {
    /// Whether the condition is true of the probes' values, before and now, and of the counters.
    pub fn is_true(&self, before: &[u128], now: &[u128], counters: &[u16]) -> bool
        requires { passes is_short self.now.formula ≡ true }
        ensures { result ≡ cond_true (is_met before.now now.now counters.now) self.now }
    {
        self.negated != self.formula.is_true(before, now, counters)
    }
}
