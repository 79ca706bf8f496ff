ghost use Rattle.std.specs.Prelude.{◌≡◌, ◌++◌, [], ◌∷◌, IfOk, OnOk};

use ila_base::{Name, NoMemory};
use std::alloc::Global;

/// A name behind a prefix. The prefix stays as it is.
pub fn name_behind(alloc: Global, prefix: &mut Vec<u8>, name: &[u8]) -> Result<Name, NoMemory>
    ensures stays { OnOk result (prefix.new.items ≡ prefix.old.items) }
    ensures named { IfOk result (λ whole. whole ≡ prefix.old.items ++ name.now) }
{
    let end = prefix.len();
    prefix.extend_from_slice(name)?;
    let whole = Name::new(alloc, prefix.as_slice())?;
    prefix.truncate(end);
    Ok(whole)
}

/// Makes a prefix that of an instance.
pub fn enter(prefix: &mut Vec<u8>, instance: &[u8]) -> Result<(), NoMemory>
    ensures { OnOk result (prefix.new.items ≡ prefix.old.items ++ (instance.now ++ 47 ∷ [])) }
{
    prefix.extend_from_slice(instance)?;
    prefix.push(b'/')?;
    Ok(())
}
