//! Marks of net bits, and the first of them.
ghost use Rattle.std.specs.Prelude.{◌≡◌, ℕ, ◌<◌, ◌^◌, ◌↔◌, true, IfOk, MatchOption, length};
ghost use Rattle.net_graph.specs.Lists.{IsIn, is_marked};
ghost use Rattle.flat_settle.specs.Tables.{IsFirstWith};

use ila_base::NoMemory;
use std::alloc::Global;

/// A mark for each number of the list.
pub fn marks_of(alloc: Global, count: usize, list: &[u32]) -> Result<Vec<bool>, NoMemory>
    requires { (n : ℕ) → IsIn list.now n → n < count }
    ensures size { IfOk result (λ marks. length marks.items ≡ count) }
    ensures marked { IfOk result (λ marks. (n : ℕ) → (is_marked marks.items n ≡ true) ↔ IsIn list.now n) }
{
    let mut marks = vec![in alloc; false; count]?;
    for number in list {
        marks[*number as usize] = true;
    }
    Ok(marks)
}

/// The first number with a mark whose other mark is this one.
pub fn first_with(marks: &[bool], others: &[bool], want: bool) -> Option<u32>
    requires same { length others.now ≡ length marks.now }
    requires few { length marks.now < 2 ^ 32 }
    ensures { MatchOption result ((n : ℕ) → is_marked marks.now n ≡ true → is_marked others.now n ≡ want → ⊥) (λ n. IsFirstWith marks.now others.now want n) }
{
    for number in 0..marks.len() {
        if marks[number] && others[number] == want {
            return Some(number as u32);
        }
    }
    None
}
