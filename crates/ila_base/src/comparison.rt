//! What comparisons mean (UG908, compare values).

ghost use Rattle.std.specs.Prelude.{◌≡◌, ◌≤◌, ◌&&◌, ◌==◌, not, All, length, slice_index};
ghost use Rattle.std.specs.List.{list_all, list_any};
ghost use Rattle.ila_base.specs.declared.limits.TheConstants.{CONSTANT_BITS};
ghost use Rattle.ila_base.specs.Comparison as comparison;

use crate::compare::{BasicCond, Compare, Digit, Join, Op};

impl Digit {
    /// Whether the digit matches its bit, which was and is.
    fn matches(self, was: bool, is: bool) -> bool
        ensures { result ≡ comparison.matches self was is }
    {
        match self {
            Digit::Zero => !is,
            Digit::One => is,
            Digit::Any => true,
            Digit::Rise => !was && is,
            Digit::Fall => was && !is,
            Digit::Both => was != is,
            Digit::Steady => was == is,
        }
    }

    // Whether the digit stands for a bit alone.
    fn is_bit(self) -> bool
        ensures { result ≡ comparison.is_bit self }
    {
        matches!(self, Digit::Zero | Digit::One)
    }

    // The bit of a digit 1, else 0.
    fn bit(self) -> u128
        ensures { result ≡ comparison.digit_bit self }
    {
        match self {
            Digit::One => 1,
            _ => 0,
        }
    }
}

impl Op {
    // Whether the operator compares by order.
    fn is_order(self) -> bool
        ensures { result ≡ comparison.is_order self }
    {
        !matches!(self, Op::Eq | Op::Ne)
    }

    // Whether two whole numbers are in the operator's relation.
    fn compares(self, a: u128, b: u128) -> bool
        ensures { result ≡ comparison.compares self a b }
    {
        match self {
            Op::Eq => a == b,
            Op::Ne => a != b,
            Op::Lt => a < b,
            Op::Le => a <= b,
            Op::Gt => a > b,
            Op::Ge => a >= b,
        }
    }
}

// Whether each digit matches its bit of the two values.
fn all_match(digits: &[Digit], before: u128, now: u128) -> bool
    ensures { result ≡ comparison.all_match digits.now before now }
{
    let mut was = before;
    let mut is = now;
    for digit in digits {
        if !digit.matches(was % 2 == 1, is % 2 == 1) {
            return false;
        }
        was /= 2;
        is /= 2;
    }
    true
}

// Whether each digit stands for a bit alone.
fn all_bits(digits: &[Digit]) -> bool
    ensures { result ≡ list_all comparison.is_bit digits.now }
{
    digits.iter().all(|digit| digit.is_bit())
}

// The number of which the digits are the bits.
fn value_of(digits: &[Digit]) -> u128
    requires { length digits.now ≤ CONSTANT_BITS }
    ensures { result ≡ comparison.value_of digits.now }
{
    let mut value = 0;
    let mut left = digits.len();
    while left > 0 {
        left -= 1;
        value = value * 2 + digits[left].bit();
    }
    value
}

impl Compare {
    /// Whether the comparison is true of a value, and of the value before where a digit asks for it
    /// (UG908, compare values): `==` where each digit matches its bit, `!=` where not each does. An
    /// order compares the value with the number that the digits are, as whole numbers without a
    /// sign. It takes no memory.
    pub fn holds(&self, before: u128, now: u128) -> bool
        requires { length self.now.digits ≤ CONSTANT_BITS }
        ensures { result ≡ comparison.holds self.now.op self.now.digits before now }
    {
        match self.op {
            Op::Eq => all_match(self.digits.list(), before, now),
            Op::Ne => !all_match(self.digits.list(), before, now),
            Op::Lt | Op::Le | Op::Gt | Op::Ge => {
                self.op.compares(now, value_of(self.digits.list()))
            }
        }
    }

    /// Whether the operator allows the digits: with an order each is 0 or 1. It takes no memory.
    pub fn is_allowed(&self) -> bool
        ensures { result ≡ comparison.allows self.now.op self.now.digits }
    {
        !self.op.is_order() || all_bits(self.digits.list())
    }

    // Whether the comparison is true of its probe's values.
    fn is_true(&self, before: &[u128], now: &[u128]) -> bool
        requires { comparison.IsShort self.now }
        ensures { result ≡ comparison.is_true before.now now.now self.now }
    {
        let probe = self.probe as usize;
        self.holds(
            before.get(probe).copied().unwrap_or(0),
            now.get(probe).copied().unwrap_or(0),
        )
    }
}

// Whether each comparison is true.
fn all_true(compares: &[Compare], before: &[u128], now: &[u128]) -> bool
    requires { All comparison.IsShort compares.now }
    ensures { result ≡ list_all (comparison.is_true before.now now.now) compares.now }
{
    for compare in compares {
        if !compare.is_true(before, now) {
            return false;
        }
    }
    true
}

// Whether a comparison is true.
fn any_true(compares: &[Compare], before: &[u128], now: &[u128]) -> bool
    requires { All comparison.IsShort compares.now }
    ensures { result ≡ list_any (comparison.is_true before.now now.now) compares.now }
{
    for compare in compares {
        if compare.is_true(before, now) {
            return true;
        }
    }
    false
}

impl BasicCond {
    /// Whether the condition is true of the values of a core's probes, by their numbers, at a clock
    /// and at the one before (UG908, basic trigger mode). A probe without a value counts as 0. It
    /// takes no memory.
    pub fn holds(&self, before: &[u128], now: &[u128]) -> bool
        requires { All comparison.IsShort self.now.compares }
        ensures { result ≡ comparison.condition_holds self.now before.now now.now }
    {
        let compares = self.compares.as_slice();
        match self.join {
            Join::And => all_true(compares, before, now),
            Join::Or => any_true(compares, before, now),
            Join::Nand => !all_true(compares, before, now),
            Join::Nor => !any_true(compares, before, now),
        }
    }
}
