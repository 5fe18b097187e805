// TCG tokens: one read at a place of a slice, and atoms and control tokens written at a place of a buffer.
#![tactic(auto)]

ghost use Rattle.std.specs.Prelude.{◌≡◌, true, false, [], ◌∷◌, ◌+◌, ◌*◌, ◌<◌, ◌≤◌, length, drop, take, ltb, MatchResult};
ghost use Rattle.token.specs.declared.PutError.TheVariants.{Full};
ghost use Rattle.token.specs.Bytes.{be_val, number_at, be_of, over};
ghost use Rattle.token.specs.Token.{is_control, lead_of, atom_of, token_at};
ghost use Rattle.token.specs.Write.{size_of, enc_int, head_of, enc_bytes, max_bytes, put_end, put_all};
ghost use Rattle.token.specs.Laws.{ReadBack, Shortest, Inside, Skipped};
ghost use Rattle.token.specs.Exact.{FirstByte, TokensAsSaid};

// What the first byte says.
#[derive(Clone, Copy)]
pub enum Lead {
    // 00-3F: its own value
    Tiny,
    // 80-8F, A0-AF: whether it is bytes, and the length
    Short(bool, u8),
    // C0-C7, D0-D7: whether it is bytes, and the high three bits of the length
    Medium(bool, u8),
    // E0, E2: whether it is bytes
    Long(bool),
    // F0-F3, F8-FC
    Control,
    // FF
    Empty,
    // any other
    Broken,
}

#[derive(Clone, Copy)]
pub enum Token {
    Int {
        value: u64,
        next: usize,
    },
    Bytes {
        start: usize,
        len: usize,
        next: usize,
    },
    Control {
        code: u8,
        next: usize,
    },
    // nothing stands here but empty tokens
    End,
    Broken,
}

// Why nothing was put: there is no room, or it is outside the limits. A writer answers where what was put ends, or this.
#[derive(Clone, Copy, PartialEq, Eq)]
pub enum PutError {
    Full,
    Outside,
}

// What the first byte says.
#[tactic(auto, using(crate::proofs::Leads::leads))]
pub fn classify(b: u8) -> Lead
    ensures { result ≡ lead_of b }
{
    match b {
        0x00..=0x3f => Lead::Tiny,
        0x80..=0x8f => Lead::Short(false, b - 0x80),
        0xa0..=0xaf => Lead::Short(true, b - 0xa0),
        0xc0..=0xc7 => Lead::Medium(false, b - 0xc0),
        0xd0..=0xd7 => Lead::Medium(true, b - 0xd0),
        0xe0 => Lead::Long(false),
        0xe2 => Lead::Long(true),
        0xf0..=0xf3 | 0xf8..=0xfc => Lead::Control,
        0xff => Lead::Empty,
        _ => Lead::Broken,
    }
}

// The number that the bytes make, the first the highest.
fn number(bytes: &[u8]) -> u64
    requires { length bytes.now ≤ 8 }
    ensures { result ≡ be_val 0 bytes.now }
{
    let mut v = 0;
    for b in bytes {
        v = v * 256 + u64::from(*b);
    }
    v
}

// The number that n bytes from at make, and 0 where they are not there or too many for 64 bits.
#[tactic(auto, unfolding(crate::specs::Bytes::number_at))]
pub fn number_at(s: &[u8], at: usize, n: usize) -> u64
    ensures { result ≡ number_at s.now at n }
{
    if 8 < n || s.len() < at || s.len() - at < n {
        return 0;
    }
    number(&s[at..at + n])
}

// The atom whose n bytes start at p.
#[tactic(auto, using(crate::proofs::Tokens::atoms))]
fn atom(s: &[u8], p: usize, bytes: bool, n: usize) -> Token
    requires { p ≤ length s.now }
    ensures { result ≡ atom_of bytes n p (drop p s.now) }
{
    if s.len() - p < n {
        return Token::Broken;
    }
    let next = p + n;
    if bytes {
        return Token::Bytes {
            start: p,
            len: n,
            next,
        };
    }
    if n == 0 || 8 < n {
        return Token::Broken;
    }
    Token::Int {
        value: number(&s[p..next]),
        next,
    }
}

// The token at at.
#[tactic(auto, using(crate::proofs::Tokens::tokens))]
pub fn read(s: &[u8], at: usize) -> Token
    ensures { result ≡ token_at s.now at }
{
    for i in at..s.len() {
        let b = s[i];
        let p = i + 1;
        match classify(b) {
            Lead::Tiny => {
                return Token::Int {
                    value: u64::from(b),
                    next: p,
                };
            }
            Lead::Short(bytes, n) => return atom(s, p, bytes, usize::from(n)),
            Lead::Medium(bytes, h) => {
                let Some(x) = s.get(p) else {
                    return Token::Broken;
                };
                return atom(s, p + 1, bytes, usize::from(h) * 256 + usize::from(*x));
            }
            Lead::Long(bytes) => {
                let [x, y, z, ..] = &s[p..] else {
                    return Token::Broken;
                };
                let n = usize::from(*x) * 65536 + usize::from(*y) * 256 + usize::from(*z);
                return atom(s, p + 3, bytes, n);
            }
            Lead::Control => return Token::Control { code: b, next: p },
            Lead::Empty => {}
            Lead::Broken => return Token::Broken,
        }
    }
    Token::End
}

// How many bytes v takes.
#[tactic(auto, unfolding(crate::specs::Write::size_of))]
fn size(v: u64) -> usize
    ensures { (result ≡ size_of v) × (1 ≤ result) × (result ≤ 8) }
{
    match v {
        0..=0xff => 1,
        0x100..=0xffff => 2,
        0x10000..=0xffffff => 3,
        0x1000000..=0xffffffff => 4,
        0x100000000..=0xffffffffff => 5,
        0x10000000000..=0xffffffffffff => 6,
        0x1000000000000..=0xffffffffffffff => 7,
        _ => 8,
    }
}

// How many bytes put_int writes.
#[tactic(auto, using(crate::proofs::Forms::int_lengths))]
pub fn int_len(v: u64) -> usize
    ensures { (result ≡ length (enc_int v)) × (1 ≤ result) × (result ≤ 9) }
{
    if v < 0x40 { 1 } else { size(v) + 1 }
}

// The lowest bytes of v, the highest first, as many as the buffer has.
fn digits(buf: &mut [u8], mut v: u64)
    ensures { buf.new ≡ be_of (length buf.old) v }
{
    for j in (0..buf.len()).rev() {
        buf[j] = (v % 256) as u8;
        v /= 256;
    }
}

// Where n bytes from at end, if there is room for them.
fn room(buf: &[u8], at: usize, n: usize) -> Result<usize, PutError>
    ensures { MatchResult result
        (λ end. (end ≡ at + n) × (at + n ≤ length buf.now))
        (λ e. (e ≡ Full) × (length buf.now < at + n)) }
{
    if buf.len() < at || buf.len() - at < n {
        return Err(PutError::Full);
    }
    Ok(at + n)
}

// The lowest n bytes of v, the highest first, at at.
#[tactic(auto, using(crate::proofs::Writes::writes))]
pub fn put_number(buf: &mut [u8], at: usize, n: usize, v: u64) -> Result<usize, PutError>
    ensures answer { result ≡ put_end true (length buf.old) at (be_of n v) }
    ensures buffer { buf.new ≡ put_all true buf.old at (be_of n v) }
{
    let end = room(buf, at, n)?;
    digits(&mut buf[at..end], v);
    Ok(end)
}

// An integer in its shortest form, at at.
#[tactic(auto, using(crate::proofs::Writes::writes, crate::proofs::Forms::ints))]
pub fn put_int(buf: &mut [u8], at: usize, v: u64) -> Result<usize, PutError>
    ensures answer { result ≡ put_end true (length buf.old) at (enc_int v) }
    ensures buffer { buf.new ≡ put_all true buf.old at (enc_int v) }
{
    if v < 64 {
        let end = room(buf, at, 1)?;
        buf[at] = v as u8;
        return Ok(end);
    }
    let n = size(v);
    let end = room(buf, at, 1 + n)?;
    buf[at] = 0x80 + n as u8;
    digits(&mut buf[at + 1..end], v);
    Ok(end)
}

// How many bytes stand before n bytes.
#[tactic(auto, using(crate::proofs::Forms::head_lengths))]
pub fn head_len(n: usize) -> usize
    ensures { (result ≡ length (head_of n)) × (1 ≤ result) × (result ≤ 4) }
{
    if n < 16 {
        1
    } else if n < 2048 {
        2
    } else {
        4
    }
}

// What stands before n bytes.
#[tactic(auto, using(crate::proofs::Writes::writes, crate::proofs::Forms::heads))]
fn head(buf: &mut [u8], at: usize, n: usize)
    requires { (n < max_bytes) × (at + length (head_of n) ≤ length buf.old) }
    ensures { buf.new ≡ over buf.old at (head_of n) }
{
    if n < 0x10 {
        buf[at] = 0xa0 + n as u8;
    } else if n < 0x800 {
        buf[at..at + 2].copy_from_slice(&[0xd0 + (n / 256) as u8, (n % 256) as u8]);
    } else {
        buf[at..at + 4].copy_from_slice(&[
            0xe2,
            (n / 65536) as u8,
            (n / 256 % 256) as u8,
            (n % 256) as u8,
        ]);
    }
}

// Bytes behind their shortest head, at at; more than a long atom holds are outside the limits.
#[tactic(auto, using(crate::proofs::Writes::writes, crate::proofs::Forms::wholes))]
pub fn put_bytes(buf: &mut [u8], at: usize, src: &[u8]) -> Result<usize, PutError>
    ensures answer { result ≡ put_end (ltb (length src.now) max_bytes) (length buf.old) at (enc_bytes src.now) }
    ensures buffer { buf.new ≡ put_all (ltb (length src.now) max_bytes) buf.old at (enc_bytes src.now) }
{
    let n = src.len();
    if 16777216 <= n {
        return Err(PutError::Outside);
    }
    let h = head_len(n);
    let end = room(buf, at, h + n)?;
    head(buf, at, n);
    buf[at + h..end].copy_from_slice(src);
    Ok(end)
}

// A control token, at at; any other byte is outside the limits.
#[tactic(auto, using(crate::proofs::Writes::writes, crate::proofs::Round::marks))]
pub fn put_control(buf: &mut [u8], at: usize, code: u8) -> Result<usize, PutError>
    ensures answer { result ≡ put_end (is_control code) (length buf.old) at (code ∷ []) }
    ensures buffer { buf.new ≡ put_all (is_control code) buf.old at (code ∷ []) }
{
    let Lead::Control = classify(code) else {
        return Err(PutError::Outside);
    };
    let next = room(buf, at, 1)?;
    buf[at] = code;
    Ok(next)
}

// What is written is read back as the same token, whatever stands around it.
pub fn law_read_back()
    ensures { ReadBack }
{}

// No form that is read is shorter than the one that is written, and none runs past the input.
pub fn law_shortest()
    ensures { Shortest }
{}

// A token's contents lie within it.
pub fn law_inside()
    ensures { Inside }
{}

// An empty token in front changes nothing but the places.
pub fn law_skipped()
    ensures { Skipped }
{}

// The first byte as 256 rows.
pub fn law_first_byte()
    ensures { FirstByte }
{}

// Exactly which bytes are which token.
pub fn law_tokens()
    ensures { TokensAsSaid }
{}
