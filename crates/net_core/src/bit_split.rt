ghost use Rattle.std.specs.Prelude.{◌≡◌, ◌≢◌, ℕ, ◌<◌, ◌^◌, List, IfSome, IfNone};
ghost use Rattle.net_core.specs.WellFormed.{indexed_name};

use itoa::Buffer;

/// The two parts of a name of the form `front[index]`, where the index is written in decimal without
/// leading zeros and is below 2^32. The last `[` counts. `None` where the name has not this form.
pub fn split_bit_name(name: &str) -> Option<(&str, u32)>
    ensures split { IfSome result (λ parts. name.now ≡ indexed_name parts.0.now parts.1) }
    ensures small { IfSome result (λ parts. parts.1 < 2 ^ 32) }
    ensures whole { IfNone result ((front : List ℕ) (index : ℕ) → index < 2 ^ 32 → name.now ≢ indexed_name front index) }
{
    let open = name.strip_suffix(']')?;
    let (front, digits) = open.rsplit_once('[')?;
    let index = digits.parse::<u32>().ok()?;
    let mut buffer = Buffer::new();
    if buffer.format(index) == digits {
        Some((front, index))
    } else {
        None
    }
}
