//! Lists and byte strings from slices, and room for them.

ghost use Rattle.std.specs.Prelude.{◌≡◌, [], IfOk};

use std::alloc::{AllocError, Global};
use system_keys::{Bytes, Items};

/// An empty list with room for `count` items.
pub fn room<T: Drop>(alloc: Global, count: usize) -> Result<Vec<T>, AllocError>
    ensures { IfOk result (λ list. list.items ≡ []) }
{
    Vec::with_capacity(alloc, count)
}

/// The items as a list.
pub fn list<T: Copy>(alloc: Global, items: &[T]) -> Result<Vec<T>, AllocError>
    ensures { IfOk result (λ list. list.items ≡ items.now) }
{
    Vec::from_slice(alloc, items)
}

/// The byte string of these bytes.
pub fn bytes(alloc: Global, text: &[u8]) -> Result<Bytes, AllocError>
    ensures { IfOk result (λ bytes. bytes ≡ text.now) }
{
    Ok(Bytes::from(list(alloc, text)?))
}

/// The byte `count` times.
pub fn repeat_byte(alloc: Global, byte: u8, count: usize) -> Result<Vec<u8>, AllocError> {
    let mut bytes = room(alloc, count)?;
    for _ in 0..count {
        bytes.push(byte)?;
    }
    Ok(bytes)
}

/// No items.
pub fn none<T>(alloc: Global) -> Items<T>
    ensures { result ≡ [] }
{
    Items::from(Vec::new(alloc))
}

/// The item alone.
pub fn one<T: Drop>(alloc: Global, item: T) -> Result<Items<T>, AllocError> {
    let mut items = room(alloc, 1)?;
    items.push(item)?;
    Ok(Items::from(items))
}
