// Hex and decimal digits.
ghost use Rattle.std.specs.Prelude.{◌≡◌, ◌≤◌, ◌<◌};
ghost use Rattle.std.specs.List.{list_any};
ghost use Rattle.line.specs.Hex.{digit_of, char_of};
ghost use Rattle.line.specs.Words.{past};

// What a digit says; 16 for any other byte, and no None: a reader has asked before whether all are digits, or counts it as 0.
#[tactic(auto, unfolding(crate::specs::Hex::digit_of, token::specs::Bytes::within))]
pub(crate) fn digit(b: u8) -> u8
    ensures { (result ≡ digit_of b) × (result ≤ 16) }
{
    match b {
        b'0'..=b'9' => b - b'0',
        b'A'..=b'F' => b - b'A' + 10,
        b'a'..=b'f' => b - b'a' + 10,
        _ => 16,
    }
}

// How a digit is written.
#[tactic(auto, unfolding(crate::specs::Hex::char_of))]
pub(crate) fn letter(d: u8) -> u8
    requires { d < 16 }
    ensures { result ≡ char_of d }
{
    if d < 10 { b'0' + d } else { b'a' + (d - 10) }
}

// Whether a byte of w is anything but a decimal digit.
#[tactic(auto, unfolding(crate::specs::Words::past, crate::specs::Hex::digit_of, token::specs::Bytes::within))]
pub(crate) fn any_but_decimal(w: &[u8]) -> bool
    ensures { result ≡ list_any (past 10) w.now }
{
    w.iter().any(|b| !b.is_ascii_digit())
}

// Whether a byte of w is anything but a hex digit.
#[tactic(auto, unfolding(crate::specs::Words::past, crate::specs::Hex::digit_of, token::specs::Bytes::within))]
pub(crate) fn any_but_hex(w: &[u8]) -> bool
    ensures { result ≡ list_any (past 16) w.now }
{
    w.iter().any(|b| !b.is_ascii_hexdigit())
}
