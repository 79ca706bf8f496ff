ghost use Rattle.std.specs.Prelude.{◌≡◌, ◌++◌, codes, decimal, IfOk};

use ila_base::{Name, NoMemory};
use itoa::Buffer;
use std::alloc::Global;

/// The number in decimal.
pub fn number_text(alloc: Global, number: u64) -> Result<Name, NoMemory>
    ensures { IfOk result (λ text. text ≡ decimal number) }
{
    let mut buffer = Buffer::new();
    Name::new(alloc, buffer.format(number).as_bytes())
}

/// `name[index]` (IEEE 1364-2005, 5.2.1).
pub fn bit_text(alloc: Global, name: &Name, index: u32) -> Result<Name, NoMemory>
    ensures { IfOk result (λ text. text ≡ name.now ++ codes "[" ++ decimal index ++ codes "]") }
{
    let mut buffer = Buffer::new();
    let mut text = Vec::from_slice(alloc, name.bytes())?;
    text.extend_from_slice(b"[")?;
    text.extend_from_slice(buffer.format(index).as_bytes())?;
    text.extend_from_slice(b"]")?;
    Name::new(alloc, text.as_slice())
}

/// `name[left:right]` (IEEE 1364-2005, 5.2.1).
pub fn part_text(alloc: Global, name: &Name, left: u32, right: u32) -> Result<Name, NoMemory>
    ensures { IfOk result (λ text. text ≡ name.now ++ codes "[" ++ decimal left ++ codes ":" ++ decimal right ++ codes "]") }
{
    let mut first = Buffer::new();
    let mut second = Buffer::new();
    let mut text = Vec::from_slice(alloc, name.bytes())?;
    text.extend_from_slice(b"[")?;
    text.extend_from_slice(first.format(left).as_bytes())?;
    text.extend_from_slice(b":")?;
    text.extend_from_slice(second.format(right).as_bytes())?;
    text.extend_from_slice(b"]")?;
    Name::new(alloc, text.as_slice())
}
