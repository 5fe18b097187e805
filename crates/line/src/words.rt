// The words of a line.
ghost use Rattle.std.specs.Prelude.{◌≡◌, ◌<◌, ◌≤◌, length, IfSome};
ghost use Rattle.line.specs.Words.{blank, word_at};

#[tactic(auto, unfolding(crate::specs::Words::blank))]
fn is_blank(b: u8) -> bool
    ensures { result ≡ blank b }
{
    matches!(b, b' ' | b'\t' | b'\r')
}

// The next word from at on: its first place, and the place after it.
pub(crate) fn word(s: &[u8], at: usize) -> Option<(usize, usize)>
    ensures value { result ≡ word_at s.now at }
    ensures inside { IfSome result (λ w. (w.0 < length s.now) × (w.0 ≤ w.1) × (w.1 ≤ length s.now)) }
{
    let p = (at..s.len())
        .find(
            |&i|
                requires { i < length s.now }
            { !is_blank(s[i]) },
        )
        .unwrap_or(s.len());
    let e = (p..s.len())
        .find(
            |&i|
                requires { i < length s.now }
            { is_blank(s[i]) },
        )
        .unwrap_or(s.len());
    if p < s.len() { Some((p, e)) } else { None }
}
