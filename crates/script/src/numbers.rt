// Decimal numbers in their one canonical spelling: no sign, no leading zero.
ghost use Rattle.std.specs.Prelude.{◌≡◌, IfSome};
ghost use Rattle.script.specs.Decimal.{value};

use std::str::from_utf8;

#[tactic(auto, using(crate::proofs::Digits::parsed))]
pub fn parse_unsigned(bytes: &[u8]) -> Option<u64>
    ensures { IfSome result (λ n. n ≡ value 0 bytes.now) }
{
    match bytes {
        [b'0'] => Some(0),
        [b'1'..=b'9', ..] => from_utf8(bytes).ok()?.parse().ok(),
        _ => None,
    }
}
