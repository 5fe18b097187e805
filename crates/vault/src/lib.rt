// The vault: it alone reads a stored PIN. What it compares, and what a decision makes it do.
#![tactic(auto)]

ghost use Rattle.std.specs.Prelude.{◌≡◌, ◌≤◌, length, get_or, set};
ghost use Rattle.model.specs.Record.{pin_bytes, no_secrets, pin_of, secret_of, secret_at};
ghost use Rattle.model.specs.Vault.{same, part, decided, with_live, put_back, wiped, given_up, obey_change, obey};

use model::{Change, Decision, Judged, PIN_BYTES, PINS, Secret, Vault};

// The bytes from at on: len of them, or as many as there are.
fn part(s: &[u8], at: usize, len: usize) -> &[u8]
    ensures { result.now ≡ part s.now at len }
{
    let rest = s.get(at..).unwrap_or(&[]);
    rest.get(..len).unwrap_or(rest)
}

// Byte i of these, and 0 past the last.
fn byte_of(p: &[u8], i: usize) -> u8
    ensures { result ≡ get_or p.now i 0 }
{
    p.get(i).copied().unwrap_or(0)
}

// Whether these bytes are the PIN. Every byte is looked at, whatever is found on the way.
fn matches(x: Secret, sent: &[u8]) -> bool
    ensures { result ≡ same (pin_of x) sent.now }
{
    let stored = part(&x.bytes, 0, usize::from(x.len));
    let mut equal = stored.len() == sent.len();
    for i in 0..PIN_BYTES {
        equal &= byte_of(stored, i) == byte_of(sent, i);
    }
    equal
}

// The PIN of a row; a row that is not there has none.
fn secret_at(l: [Secret; PINS], r: usize) -> Secret
    ensures { pin_of result ≡ pin_of (secret_at l r) }
{
    l.get(r).copied().unwrap_or(Secret {
        bytes: [0; PIN_BYTES],
        len: 0,
    })
}

// What is decided once the PIN, where one must be, is compared.
#[tactic(auto, unfolding(model::specs::Vault::decided))]
pub fn decided(v: Vault, s: &[u8], j: Judged) -> Decision
    ensures { result ≡ decided v s.now j }
{
    match j {
        Judged::Settled(d) => d,
        Judged::Compare {
            row,
            at,
            len,
            equal,
            differs,
        } => {
            if matches(secret_at(v.live, row), part(s, at, len)) {
                equal
            } else {
                differs
            }
        }
    }
}

// These bytes as a PIN, and zeros after them.
fn secret_of(p: &[u8]) -> Secret
    requires { length p.now ≤ pin_bytes }
    ensures { result ≡ secret_of p.now }
{
    let mut bytes = [0; PIN_BYTES];
    bytes[..p.len()].copy_from_slice(p);
    Secret {
        bytes,
        len: p.len() as u8,
    }
}

// With these PINs, and the copies as they are.
fn with_live(v: Vault, live: [Secret; PINS]) -> Vault
    ensures { result ≡ with_live v live }
{
    Vault { live, ..v }
}

// With the PIN of a row put anew. As in apply, the store stands here: of `get_mut` the library does not say what was written.
fn put(mut v: Vault, r: usize, x: Secret) -> Vault
    ensures { result ≡ with_live v (set v.live r x) }
{
    if r < PINS {
        v.live[r] = x;
    }
    v
}

// The Locking SP's PINs empty again; SID's stays.
fn without_locking(v: Vault) -> Vault
    ensures { result ≡ with_live v (set no_secrets 0 (secret_at v.live 0)) }
{
    let mut l = fresh::no_secrets();
    l[0] = v.live[0];
    with_live(v, l)
}

#[tactic(auto, unfolding(model::specs::Vault::obey_change))]
fn obey_change(v: Vault, msid: [u8; PIN_BYTES], s: &[u8], x: Change) -> Vault
    ensures { result ≡ obey_change msid s.now v x }
{
    match x {
        Change::PutPin { row, at, len } if len <= PIN_BYTES => put(
            v,
            row,
            secret_of(part(s, at, len)),
        ),
        Change::Activate => put(v, 1, v.live[0]),
        Change::RevertLocking | Change::RevertSp => without_locking(v),
        Change::RevertAdmin => with_live(v, fresh::factory_secrets(msid)),
        _ => v,
    }
}

// With no copy kept.
fn wiped(v: Vault) -> Vault
    ensures { result ≡ wiped v }
{
    Vault {
        kept: fresh::no_secrets(),
        ..v
    }
}

// The copies are put back, and none is kept.
fn put_back(v: Vault) -> Vault
    ensures { result ≡ put_back v }
{
    wiped(with_live(v, v.kept))
}

// An open transaction, if there is one, is given up.
pub fn given_up(v: Vault, live: bool) -> Vault
    ensures { result ≡ given_up live v }
{
    if live { put_back(v) } else { wiped(v) }
}

// What a decision makes of the PINs; live says whether a transaction is open.
#[tactic(auto, unfolding(model::specs::Vault::obey))]
pub fn obey(v: Vault, msid: [u8; PIN_BYTES], live: bool, s: &[u8], d: Decision) -> Vault
    ensures { result ≡ obey msid live s.now v d }
{
    match d {
        Decision::Done(x) => obey_change(v, msid, s, x),
        Decision::Began => {
            let kept = v.live;
            Vault { kept, ..v }
        }
        Decision::Committed => wiped(v),
        Decision::Abandoned => put_back(v),
        Decision::Ended | Decision::Broke => given_up(v, live),
        _ => v,
    }
}
