//! Objects, as their tokens come: their fields in any order, each once.

ghost use Rattle.std.specs.Prelude.{◌≡◌, IfSome, Some};
ghost use Rattle.std.specs.Cow.{cow_str_bytes};
ghost use Rattle.serde_json.specs.Data.{Data, Members, member, no_members, object, put};
ghost use Rattle.scripts.specs.Shapes.{pair_shape};
ghost use Rattle.scripts.specs.Streams.{TakesData, TakesField, TakesMembers};

use crate::stream_shapes::take_pair;
use crate::streams::Streamed;
use script_tokens::Tokens;
use std::alloc::Global;
use std::borrow::CowStr;
use system_keys::Bytes;

/// What is held of the fields of an object while they come.
pub trait Fields: Drop {
    ghost holds: { Self → Members → Type 0 };

    /// Nothing of an object without fields.
    fn none() -> Self
        ensures { holds result no_members };

    /// Takes the value of the field of this name, and holds what it stands for. Returns `None` if
    /// the object may not have the field, or has it twice, and otherwise as `Streamed` does.
    fn take_field(
        &mut self,
        alloc: Global,
        reader: &mut Tokens<'_>,
        depth: usize,
        name: &str,
    ) -> Option<()>
        ensures { IfSome result (λ _. (d : Data) × TakesData depth reader.old d reader.new
            × ((ms : Members) → holds self.old ms → holds self.new (put name.now d ms))) };
}

/// Takes the tokens of an object, and returns what is held of its fields. Returns `None` as
/// `Fields` and `Streamed` do.
pub fn take_object<F: Fields>(alloc: Global, reader: &mut Tokens<'_>, depth: usize) -> Option<F>
    ensures { IfSome result (λ fields. (ms : Members)
        × TakesData depth reader.old (object ms) reader.new × F.holds fields ms) }
{
    if depth == 0 || !reader.take_begin_object() {
        return None;
    }
    take_fields(alloc, reader, depth - 1)
}

// The fields of an object up to the brace that closes it.
fn take_fields<F: Fields>(alloc: Global, reader: &mut Tokens<'_>, depth: usize) -> Option<F>
    ensures { IfSome result (λ fields. (ms : Members)
        × TakesMembers depth reader.old ms reader.new × F.holds fields ms) }
{
    let mut fields = F::none();
    'fields: while !reader.take_end_object() {
        let name = reader.take_key(alloc)?;
        fields.take_field(alloc, reader, depth, name.as_str())?;
    }
    Some(fields)
}

/// Takes a value, and puts what it stands for into an empty slot. Returns `None` if the slot is
/// filled, and otherwise as `Streamed` does.
pub fn take_into_slot<X: Streamed>(
    slot: &mut Option<X>,
    alloc: Global,
    reader: &mut Tokens<'_>,
    depth: usize,
) -> Option<()>
    ensures { IfSome result
        (λ _. TakesField X.shape depth reader.old slot.old slot.new reader.new) }
{
    if slot.is_some() {
        return None;
    }
    *slot = Some(X::from_tokens(alloc, reader, depth)?);
    Some(())
}

// The name of the only field of an object, and what the list of two texts in it stands for.
pub(crate) fn take_object_of_pair<'a>(
    alloc: Global,
    reader: &mut Tokens<'a>,
    depth: usize,
) -> Option<(CowStr<'a>, (Bytes, Bytes))>
    ensures { IfSome result (λ named. (d : Data)
        × TakesData depth reader.old (object (member (cow_str_bytes named.0) d no_members)) reader.new
        × (pair_shape d ≡ Some named.1)) }
{
    if depth == 0 || !reader.take_begin_object() {
        return None;
    }
    let name = reader.take_key(alloc)?;
    let pair = take_pair(alloc, reader, depth - 1)?;
    if reader.take_end_object() {
        Some((name, pair))
    } else {
        None
    }
}
