ghost use Rattle.std.specs.Prelude.{◌≡◌, ℕ, ◌≤◌, ◌<◌, IfOk, slice_get, unwrap_or};
ghost use Rattle.ila_base.specs.declared.compare.Digit.TheVariants.{Zero};
ghost use Rattle.ila_base.specs.declared.limits.TheConstants.{CONSTANT_BITS};
ghost use Rattle.tsm_parse.specs.Fitting as fitting;

use crate::types::Constant;
use ila_base::limits::CONSTANT_BITS;
use ila_base::{Digit, Digits, NoMemory};
use std::alloc::Global;

/// The digits of a constant for a probe or counter of the width in bits: as many as the width, where
/// missing ones are 0. None comes exactly where a width that is given isn't from 1 to 128, or a digit
/// at or above it, or at or above the width asked for, isn't 0.
pub fn fit(alloc: Global, constant: &Constant, width: u32) -> Result<Option<Digits>, NoMemory>
    requires low { 1 ≤ width }
    requires high { width ≤ CONSTANT_BITS }
    ensures { IfOk result (λ found. found ≡ fitting.fit_of constant.now width) }
{
    if !fits(constant, width) {
        return Ok(None);
    }
    let digits = fitted(alloc, constant.digits.list(), width as usize)?;
    Ok(Some(Digits::new(digits)))
}

fn fits(constant: &Constant, width: u32) -> bool
    ensures { result ≡ fitting.fits constant.now width }
{
    let digits = constant.digits.list();
    keeps_width(constant.width, digits) && are_zero_from(width as usize, digits)
}

fn keeps_width(width: Option<u32>, digits: &[Digit]) -> bool
    ensures { result ≡ fitting.keeps_width width digits.now }
{
    match width {
        None => true,
        Some(width) => 1 <= width
            && width <= u32::from(CONSTANT_BITS)
            && are_zero_from(width as usize, digits),
    }
}

// Whether every digit at or above the place is 0.
fn are_zero_from(place: usize, digits: &[Digit]) -> bool
    ensures { result ≡ fitting.are_zero_from place digits.now }
{
    digits.iter().skip(place).all(is_zero)
}

fn is_zero(digit: &Digit) -> bool
    ensures { result ≡ fitting.is_zero digit.now }
{
    matches!(*digit, Digit::Zero)
}

fn fitted(alloc: Global, digits: &[Digit], width: usize) -> Result<Vec<Digit>, NoMemory>
    ensures { IfOk result (λ list. list.items ≡ fitting.fitted digits.now width) }
{
    let mut list = Vec::new(alloc);
    for place in 0..width {
        list.push(digit_at(digits, place))?;
    }
    Ok(list)
}

// The digit at the place, or 0 where there is none.
fn digit_at(digits: &[Digit], place: usize) -> Digit
    ensures { result ≡ unwrap_or (slice_get digits.now place) Zero }
{
    match digits.get(place) {
        Some(digit) => *digit,
        None => Digit::Zero,
    }
}
