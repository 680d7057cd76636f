//! Copying the keys whose tags a script asks.

ghost use Rattle.std.specs.Prelude.{◌≡◌, IfOk};

use system_keys::{Bytes, Items, OutOfMemory};

/// Returns a deep copy of the keys. Fails only with `OutOfMemory`.
pub fn copy_keys(keys: &Items<Bytes>) -> Result<Vec<Bytes>, OutOfMemory>
    ensures { IfOk result (λ copy. copy.items ≡ keys.now) }
{
    let copy = keys.clone()?;
    Ok(Vec::from(copy))
}
