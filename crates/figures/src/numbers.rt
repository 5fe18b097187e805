// Every number from 2 to 7 with its neighbours, buffers of every kind and requests of every length.
use crate::{ask, host};
use model::Card;
use packet::{Hsn, Tsn};
use std::io;

// The number that the request s gets in this buffer, and what became of the buffer.
fn tells(rt: &impl Print, card: Card, s: &[u8], answer: &mut [u8]) -> io::Result<()> {
    let o = card::command(card, s, answer);
    let (number, count) = (o.number, o.count);
    let rest = if host::untouched(answer, count) {
        "the rest untouched"
    } else {
        "bytes past them changed"
    };
    println!(rt; "number {number}, {count} bytes, {rest}")
}

// The same with a buffer of 2,048.
fn hears(rt: &impl Print, card: Card, s: &[u8]) -> io::Result<()> {
    let mut answer = [host::FILL; 2048];
    tells(rt, card, s, &mut answer)
}

fn rooms(rt: &impl Print, card: Card, s: &[u8]) -> io::Result<()> {
    println!(rt; "Number 2: buffers of 0, 2,047, 2,048 and 4,096 bytes")?;
    print!(rt; "  0: ")?;
    tells(rt, card, s, &mut [host::FILL; 0])?;
    print!(rt; "  2,047: ")?;
    tells(rt, card, s, &mut [host::FILL; 2047])?;
    print!(rt; "  2,048: ")?;
    hears(rt, card, s)?;
    print!(rt; "  4,096: ")?;
    tells(rt, card, s, &mut [host::FILL; 4096])
}

// The number that a request gets.
fn number(card: Card, request: &[u8]) -> u8 {
    let mut answer = [host::FILL; 2048];
    card::command(card, request, &mut answer).number
}

// Says from which length on which number comes, of the bytes of s from the first on.
fn lengths(rt: &impl Print, card: Card, s: &[u8]) -> io::Result<()> {
    let mut last = None;
    for n in 0..=s.len() {
        let k = number(card, &s[..n]);
        if last != Some(k) {
            println!(rt; "  from {n} bytes on: number {k}")?;
        }
        last = Some(k);
    }
    Ok(())
}

// The StartSession with the n bytes at at holding v.
fn field(rt: &impl Print, card: Card, at: usize, n: usize, v: u64) -> io::Result<()> {
    let mut q = [0; 96];
    host::request(&mut q);
    ask::field(&mut q, at, n, v);
    print!(rt; "  {v}: ")?;
    hears(rt, card, &q)
}

fn envelopes(rt: &impl Print, card: Card) -> io::Result<()> {
    println!(rt; "Number 4: ComPacket Length, which is 76")?;
    field(rt, card, 16, 4, 75)?;
    field(rt, card, 16, 4, 76)?;
    field(rt, card, 16, 4, 77)?;
    println!(rt; "Packet Length, which is 52")?;
    field(rt, card, 40, 4, 51)?;
    field(rt, card, 40, 4, 52)?;
    field(rt, card, 40, 4, 53)?;
    println!(rt;
        "Subpacket Length, which is 39; 37 to 40 with their pad give the same Packet Length, so that the payload is at fault"
    )?;
    field(rt, card, 52, 4, 36)?;
    field(rt, card, 52, 4, 37)?;
    field(rt, card, 52, 4, 38)?;
    field(rt, card, 52, 4, 39)?;
    field(rt, card, 52, 4, 40)?;
    field(rt, card, 52, 4, 41)?;
    println!(rt; "ComID, which is 4,096")?;
    field(rt, card, 4, 2, 4095)?;
    field(rt, card, 4, 2, 4096)?;
    field(rt, card, 4, 2, 4097)?;
    println!(rt; "Extension and Kind, which are 0")?;
    field(rt, card, 6, 2, 1)?;
    field(rt, card, 50, 2, 1)
}

// A Get of the MSID with this TSN and HSN.
fn numbered(rt: &impl Print, what: &str, card: Card, tsn: u32, hsn: u32) -> io::Result<()> {
    let mut q = [0u8; 256];
    let n = ask::get(&mut q, ask::PIN_MSID, 3, 3);
    host::sends(rt, what, card, &mut q, Tsn(tsn), Hsn(hsn), n)?;
    Ok(())
}

fn sessions(rt: &impl Print, card: Card) -> io::Result<()> {
    println!(rt; "Number 5: a Get beside the open session of TSN 1 and HSN 105")?;
    let a = host::starts(rt, "StartSession", card, ask::ADMIN_SP)?;
    numbered(rt, "TSN 0, HSN 105", a, 0, 105)?;
    numbered(rt, "TSN 1, HSN 105", a, 1, 105)?;
    numbered(rt, "TSN 2, HSN 105", a, 2, 105)?;
    numbered(rt, "TSN 1, HSN 104", a, 1, 104)?;
    numbered(rt, "TSN 1, HSN 106", a, 1, 106)?;
    numbered(rt, "TSN 1, HSN 0", a, 1, 0)?;
    numbered(rt, "TSN 105, HSN 1", a, 105, 1)?;
    numbered(rt, "TSN 0, HSN 0", a, 0, 0)?;
    let b = host::ends(rt, a)?;
    numbered(rt, "TSN 1, HSN 105 after the end", b, 1, 105)
}

fn no_calls(rt: &impl Print, card: Card) -> io::Result<()> {
    println!(rt; "Number 6: on 0, 0; and a broken payload in a session, which closes it")?;
    host::ends(rt, card)?;
    host::pairs(rt, "FB 00", card, 0xfb, 0)?;
    host::pairs(rt, "FC 00", card, 0xfc, 0)?;
    host::pairs(rt, "FC 01", card, 0xfc, 1)?;
    host::pairs(rt, "F8 00, a broken payload", card, 0xf8, 0)?;
    host::pairs(rt, "FA 00, a broken payload", card, 0xfa, 0)?;
    host::calls(
        rt,
        "a call that is no StartSession",
        card,
        ask::LOCKING_SP,
        ask::ACTIVATE,
    )?;
    let a = host::starts(rt, "StartSession", card, ask::ADMIN_SP)?;
    let b = host::pairs(rt, "FA 00, a broken payload", a, 0xfa, 0)?;
    numbered(rt, "TSN 1, HSN 105 after it", b, 1, 105)
}

fn resets(rt: &impl Print, what: &str, card: Card) -> io::Result<()> {
    let number = card::tper_reset(card).number;
    println!(rt; "  {what}: number {number}")
}

fn reset(rt: &impl Print, card: Card) -> io::Result<()> {
    println!(rt; "Number 7: column 8 of TPerInfo")?;
    resets(rt, "TPER_RESET at the factory", card)?;
    let a = host::as_sid(rt, card)?;
    let b = host::begins(rt, a)?;
    let c = host::sets(rt, "column 8 to 1", b, ask::TPER_INFO, &[(8, 1)])?;
    resets(rt, "TPER_RESET before the commit", c)?;
    let d = host::commits(rt, c)?;
    resets(rt, "TPER_RESET after it", d)?;
    let e = host::sets(rt, "column 8 to 0", d, ask::TPER_INFO, &[(8, 0)])?;
    resets(rt, "TPER_RESET", e)
}

fn lowest(rt: &impl Print, card: Card) -> io::Result<()> {
    let long = [host::FILL; 2049];
    let junk = [host::FILL; 2048];
    let mut unsound = card;
    unsound.cells.n = 0;
    print!(rt;
        "The lowest number first: 2,049 bytes that are no packet\n  to a record with N 0, with room for 2,047: "
    )?;
    tells(rt, unsound, &long, &mut [host::FILL; 2047])?;
    print!(rt; "  with room for 2,047: ")?;
    tells(rt, card, &long, &mut [host::FILL; 2047])?;
    print!(rt; "  with room for 2,048: ")?;
    hears(rt, card, &long)?;
    print!(rt; "  one byte less: ")?;
    hears(rt, card, &junk)
}

pub(crate) fn run(rt: &impl Print) -> io::Result<()> {
    let card = host::factory();
    let mut good = [host::FILL; 96];
    host::request(&mut good);
    rooms(rt, card, &good)?;
    let mut long = [host::FILL; 2049];
    host::request(&mut long);
    println!(rt;
        "Number 3: a good packet of 96 bytes, cut or with bytes beyond, 0 to 2,049 bytes"
    )?;
    lengths(rt, card, &long)?;
    envelopes(rt, card)?;
    sessions(rt, card)?;
    no_calls(rt, card)?;
    reset(rt, card)?;
    lowest(rt, card)
}
