ghost use Rattle.std.specs.Prelude.{◌≡◌, ℕ, ◌==◌, List, map, length, IfOk, MatchOption};
ghost use Rattle.std.specs.List.{slice_split};
ghost use Rattle.stim_read.specs.Stimulus.{space, names_of, AreNames, IsHeader};
ghost use Rattle.stim_read.specs.Numbers.{Numbers};

use crate::inputs::DataInput;
use ila_base::NoMemory;
use std::alloc::Global;
use std::collections::BTreeMap;

// The words of a line, which single spaces part.
fn words_of<'a>(alloc: Global, line: &'a [u8]) -> Result<Vec<&'a [u8]>, NoMemory>
    ensures { IfOk result (λ words. map (λ word. word.now) words.items ≡ slice_split
        (λ byte. byte == space) line.now) }
{
    Ok(line.split(|byte| *byte == b' ').collect(alloc)?)
}

// The number of each input by its name.
fn numbers_of<'a>(
    alloc: Global,
    inputs: &'a [DataInput],
) -> Result<BTreeMap<&'a [u8], usize>, NoMemory>
    requires { AreNames (names_of inputs.now) }
    ensures { IfOk result (λ numbers. Numbers (names_of inputs.now) (length inputs.now) numbers) }
{
    let mut numbers = BTreeMap::new(alloc);
    for (number, input) in inputs.iter().enumerate() {
        numbers.insert(input.name.bytes(), number)?;
    }
    Ok(numbers)
}

/// The numbers of the inputs, counted from 0, in the order in which the line names them, where it is
/// a header, and else none.
pub(crate) fn header(
    alloc: Global,
    inputs: &[DataInput],
    line: &[u8],
) -> Result<Option<Vec<usize>>, NoMemory>
    requires { AreNames (names_of inputs.now) }
    ensures { IfOk result (λ named. MatchOption named ((order : List ℕ)
        → IsHeader (names_of inputs.now) order line.now
        → ⊥) (λ order. IsHeader (names_of inputs.now) order.items line.now)) }
{
    let mut order = Vec::new(alloc);
    if inputs.is_empty() {
        if !line.is_empty() {
            return Ok(None);
        }
        return Ok(Some(order));
    }
    let words = words_of(alloc, line)?;
    let mut numbers = numbers_of(alloc, inputs)?;
    for word in &words {
        match numbers.remove(*word) {
            Some(number) => order.push(number)?,
            None => return Ok(None),
        }
    }
    if !numbers.is_empty() {
        return Ok(None);
    }
    Ok(Some(order))
}
