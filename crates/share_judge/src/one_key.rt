//! The range of one key: up to the key right after it.

ghost use Rattle.std.specs.Prelude.{◌≡◌, true, false};
ghost use Rattle.system_keys.specs.Keys.{only};

use system_keys::KeyRange;

/// Whether the range has one key alone.
pub(crate) fn is_one_key(range: &KeyRange) -> bool
    ensures { result ≡ true → range.now ≡ only range.now.begin }
{
    is_right_after(range.begin(), range.end())
}

/// Whether `next` is the key right after the key: it has a zero byte more.
pub(crate) fn is_right_after(key: &[u8], next: &[u8]) -> bool
    ensures found { result ≡ true → next.now ≡ (only key.now).end }
    ensures other { result ≡ false → next.now ≡ (only key.now).end → ⊥ }
{
    match next.split_last() {
        Some((last, front)) => *last == 0 && front.cmp(key).is_eq(),
        None => false,
    }
}
