ghost use Rattle.std.specs.Prelude.{◌≡◌, ℕ, ◌+◌, ◌<◌, ◌≤◌, length, get_or, sum, sum_by, All, IfOk};
ghost use Rattle.stim_read.specs.Stimulus.{widths_of, longest_line, field_at, fields_of};

use crate::inputs::{DataInput, Field};
use ila_base::NoMemory;
use std::alloc::Global;

// The fields of all inputs, in the inputs' order, and how many bits a row has.
fn all_fields(alloc: Global, inputs: &[DataInput]) -> Result<(Vec<Field>, usize), NoMemory>
    ensures { IfOk result (λ made. (length made.0.items ≡ length inputs.now) × ((k : ℕ)
        → k < length inputs.now
        → get_or made.0.items k (record { place = 0; width = 0 }) ≡ field_at
        (widths_of inputs.now) k)
        × (made.1 ≡ sum (widths_of inputs.now))) }
{
    let mut fields = Vec::new(alloc);
    let mut place: usize = 0;
    for input in inputs {
        let width = input.width;
        fields.push(Field { place, width })?;
        place = place.checked_add(width as usize).ok_or(NoMemory)?;
    }
    Ok((fields, place))
}

/// The fields of the inputs in the order of the header, and how many bits a row has. Where these
/// can't be counted, there is no memory for them.
pub(crate) fn fields_in_order(
    alloc: Global,
    inputs: &[DataInput],
    order: &[usize],
) -> Result<(Vec<Field>, usize), NoMemory>
    requires { All (λ k. k < length inputs.now) order.now }
    ensures { IfOk result (λ made. (made.0.items ≡ fields_of (widths_of inputs.now) order.now)
        × (made.1 ≡ sum (widths_of inputs.now))) }
{
    let (all, size) = all_fields(alloc, inputs)?;
    let mut fields = Vec::new(alloc);
    for number in order {
        fields.push(all[*number])?;
    }
    Ok((fields, size))
}

/// Room for the bytes of any header and of any row of the inputs, with a carriage return.
pub(crate) fn room(inputs: &[DataInput]) -> Result<usize, NoMemory>
    ensures { IfOk result (λ room. room ≡ longest_line inputs.now) }
{
    let mut names: usize = 0;
    let mut words: usize = 0;
    for input in inputs {
        let name = input.name.bytes().len() + 1;
        let word = (input.width as usize + 3) / 4 + 1;
        names = names.checked_add(name).ok_or(NoMemory)?;
        words = words.checked_add(word).ok_or(NoMemory)?;
    }
    Ok(names.max(words).max(1))
}
