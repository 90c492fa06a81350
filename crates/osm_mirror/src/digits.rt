//! Numbers of decimal digits.
ghost use Rattle.std.specs.Prelude.{◌≡◌, ◌<◌, ◌^◌, ℕ, None, IfSome};
ghost use Rattle.std.specs.Str.{all_ascii_digits};
ghost use Rattle.osm_mirror.specs.Digits.{IsDecimal};

/// Whether all characters of `text` are decimal digits.
pub(crate) fn are_digits(text: &str) -> bool
    ensures { result ≡ all_ascii_digits text.now }
{
    text.bytes().all(|byte| byte.is_ascii_digit())
}

/// The number that `text` spells in decimal digits; none if it spells none, or one of 2^64 or more.
pub(crate) fn read_decimal(text: &str) -> Option<u64>
    ensures number { IfSome result (IsDecimal text.now) }
    ensures none { result ≡ None → (n : ℕ) → n < 2 ^ 64 → IsDecimal text.now n → ⊥ }
{
    if !are_digits(text) {
        return None;
    }
    match text.parse::<u64>() {
        Ok(number) => Some(number),
        Err(_) => None,
    }
}
