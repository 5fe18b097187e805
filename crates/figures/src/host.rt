// A host: what it asks, on the open session or on 0, 0 where none is open, and what comes back.
// `rt, what, card` stay parameters: the label is new at each call, and callers ask one card several questions, for which a struct that holds it would be copied.
use crate::{ask, say};
use model::Card;
use packet::{Hsn, Tsn};
use std::io;

// What a buffer holds before the card writes to it.
pub(crate) const FILL: u8 = 0xee;

// A PIN of 32 bytes: the card's MSID.
pub(crate) fn msid() -> [u8; 32] {
    *b"a PIN of thirty-two bytes is one"
}

// The factory's card with 1,000,000 sectors.
pub(crate) fn factory() -> Card {
    record::factory(1000000, &msid()).card
}

// Writes a StartSession with HSN 105 and no options, of 96 bytes whole.
pub(crate) fn request(q: &mut [u8]) {
    let n = ask::start(q, 105, ask::ADMIN_SP);
    ask::sealed(q, Tsn(0), Hsn(0), n);
}

// Whether s holds the fill from byte first on.
pub(crate) fn untouched(s: &[u8], first: usize) -> bool {
    s.iter().skip(first).all(|b| *b == FILL)
}

// The payload of an answer.
fn payload(rt: &impl Print, answer: &[u8]) -> io::Result<()> {
    match packet::open(answer) {
        Some(p) => {
            print!(rt; ", ")?;
            say::part(rt, answer, p.start, p.len)
        }
        None => print!(rt; ", no packet"),
    }
}

// The number that came back, and the answer where it is 0.
fn came(rt: &impl Print, number: u8, answer: &[u8]) -> io::Result<()> {
    print!(rt; ": number {number}")?;
    if number == 0 {
        payload(rt, answer)?;
    }
    println!(rt; "")
}

// Sends the payload of n bytes with this TSN and HSN.
pub(crate) fn sends(
    rt: &impl Print,
    what: &str,
    card: Card,
    q: &mut [u8],
    tsn: Tsn,
    hsn: Hsn,
    n: usize,
) -> io::Result<Card> {
    let mut answer = [FILL; 2048];
    ask::sealed(q, tsn, hsn, n);
    let o = card::command(card, q, &mut answer);
    print!(rt; "  {what}")?;
    came(rt, o.number, &answer)?;
    Ok(o.card)
}

// Sends the payload that it writes on the open session, or on 0, 0.
fn asks<F: FnOnce(&mut [u8]) -> usize>(
    rt: &impl Print,
    what: &str,
    card: Card,
    write: F,
) -> io::Result<Card>
    requires { F.IsAlwaysCallable write }
{
    let mut q = [0u8; 256];
    let n = write(&mut q);
    let s = card.cells.session;
    sends(rt, what, card, &mut q, s.tsn, s.hsn, n)
}

pub(crate) fn starts(rt: &impl Print, what: &str, card: Card, sp: u64) -> io::Result<Card> {
    asks(rt, what, card, |q| ask::start(q, 105, sp))
}

// A StartSession with an authority and the MSID as its PIN.
pub(crate) fn starts_as(
    rt: &impl Print,
    what: &str,
    card: Card,
    sp: u64,
    who: u64,
) -> io::Result<Card> {
    asks(rt, what, card, |q| ask::start_as(q, 105, sp, who, &msid()))
}

pub(crate) fn proves(
    rt: &impl Print,
    what: &str,
    card: Card,
    who: u64,
    pin: &[u8],
) -> io::Result<Card> {
    asks(rt, what, card, |q| ask::authenticate(q, who, pin))
}

pub(crate) fn calls(
    rt: &impl Print,
    what: &str,
    card: Card,
    object: u64,
    method: u64,
) -> io::Result<Card> {
    asks(rt, what, card, |q| ask::bare(q, object, method))
}

pub(crate) fn gets(
    rt: &impl Print,
    what: &str,
    card: Card,
    object: u64,
    first: u64,
    last: u64,
) -> io::Result<Card> {
    asks(rt, what, card, |q| ask::get(q, object, first, last))
}

// A Set of these columns, each by its number, in this order.
pub(crate) fn sets(
    rt: &impl Print,
    what: &str,
    card: Card,
    object: u64,
    columns: &[(u64, u64)],
) -> io::Result<Card> {
    asks(rt, what, card, |q| ask::set(q, object, columns))
}

// A Set of a range's start and length.
pub(crate) fn spans(
    rt: &impl Print,
    what: &str,
    card: Card,
    range: u64,
    start: u64,
    count: u64,
) -> io::Result<Card> {
    sets(rt, what, card, range, &[(3, start), (4, count)])
}

pub(crate) fn ends(rt: &impl Print, card: Card) -> io::Result<Card> {
    asks(rt, "end of session", card, |q| ask::one(q, 0xfa))
}

// A control token and its number.
pub(crate) fn pairs(rt: &impl Print, what: &str, card: Card, code: u8, v: u64) -> io::Result<Card> {
    asks(rt, what, card, |q| ask::pair(q, code, v))
}

pub(crate) fn begins(rt: &impl Print, card: Card) -> io::Result<Card> {
    pairs(rt, "start of a transaction", card, 0xfb, 0)
}

pub(crate) fn commits(rt: &impl Print, card: Card) -> io::Result<Card> {
    pairs(rt, "the transaction committed", card, 0xfc, 0)
}

pub(crate) fn abandons(rt: &impl Print, card: Card) -> io::Result<Card> {
    pairs(rt, "the transaction abandoned", card, 0xfc, 1)
}

// A session to the Admin SP with SID proved.
pub(crate) fn as_sid(rt: &impl Print, card: Card) -> io::Result<Card> {
    starts_as(
        rt,
        "StartSession to Admin as SID with the MSID",
        card,
        ask::ADMIN_SP,
        ask::SID,
    )
}

// A session to the Locking SP with Admin1 proved, after an Activate by SID.
pub(crate) fn as_admin1(rt: &impl Print, card: Card) -> io::Result<Card> {
    let a = as_sid(rt, card)?;
    let b = calls(
        rt,
        "SID activates the Locking SP",
        a,
        ask::LOCKING_SP,
        ask::ACTIVATE,
    )?;
    let c = ends(rt, b)?;
    starts_as(
        rt,
        "StartSession to Locking as Admin1 with the MSID",
        c,
        ask::LOCKING_SP,
        ask::ADMIN1,
    )
}
