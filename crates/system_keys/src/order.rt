//! Comparing keys and server ids.

ghost use Rattle.std.specs.Prelude.{◌≡◌, ◌&&◌};
ghost use Rattle.std.specs.Option.{option_copied};
ghost use Rattle.system_keys.specs.Keys.{is_key_below, is_key_up_to};
ghost use Rattle.system_keys.specs.Rows.{is_id_above};

/// Whether the key `a` is below the key `b`.
pub(crate) fn is_key_below(a: &[u8], b: &[u8]) -> bool
    ensures { result ≡ is_key_below a.now b.now }
{
    a.cmp(b).is_lt()
}

/// Whether the key `a` is at or below the key `b`.
pub(crate) fn is_key_up_to(a: &[u8], b: &[u8]) -> bool
    ensures { result ≡ is_key_up_to a.now b.now }
{
    a.cmp(b).is_le()
}

/// Whether `a` is below `b`, and `c` below `d`.
pub(crate) fn both_precede(a: &[u8], b: &[u8], c: &[u8], d: &[u8]) -> bool
    ensures { result ≡ (is_key_below a.now b.now && is_key_below c.now d.now) }
{
    is_key_below(a, b) && is_key_below(c, d)
}

/// Whether the server id is above the previous one, if there is one.
pub(crate) fn is_id_above(before: Option<&[u8]>, id: &[u8]) -> bool
    ensures { result ≡ is_id_above (option_copied before.entry) id.now }
{
    match before {
        Some(before) => is_key_below(before, id),
        None => true,
    }
}
