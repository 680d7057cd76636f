//! Comparing keys.

ghost use Rattle.std.specs.Prelude.{◌≡◌, ◌&&◌, not};
ghost use Rattle.system_keys.specs.Keys.{is_key_below};

/// Whether the key `a` is below the key `b`.
pub(crate) fn is_key_below(a: &[u8], b: &[u8]) -> bool
    ensures { result ≡ is_key_below a.now b.now }
{
    a.cmp(b).is_lt()
}

/// Whether the key is neither below `from` nor above `up_to`.
pub(crate) fn is_between(key: &[u8], from: &[u8], up_to: &[u8]) -> bool
    ensures { result ≡ (not (is_key_below key.now from.now) && not (is_key_below up_to.now key.now)) }
{
    !is_key_below(key, from) && !is_key_below(up_to, key)
}
