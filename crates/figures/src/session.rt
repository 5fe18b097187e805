// The figures on a session, through the card: a StartSession with HSN 105 and no options, and its end.
use crate::{ask, host, packets, say};
use model::Card;
use packet::{Hsn, Tsn};
use std::io;

// What came back, whole.
fn came(rt: &impl Print, number: u8, count: usize, answer: &[u8]) -> io::Result<()> {
    print!(rt; "  number {number}, {count} bytes out")?;
    if host::untouched(answer, count) {
        print!(rt; ", the rest untouched")?;
    }
    println!(rt; "")?;
    if number == 0 {
        print!(rt; "    ")?;
        say::some(rt, answer, count)?;
        println!(rt; "")?;
    }
    Ok(())
}

// Sends these bytes, no more, and shows them and the answer.
fn exchange(rt: &impl Print, card: Card, request: &[u8]) -> io::Result<Card> {
    let mut answer = [host::FILL; 2048];
    let o = card::command(card, request, &mut answer);
    let size = request.len();
    print!(rt; "  {size} bytes in\n    ")?;
    say::hex(rt, request)?;
    println!(rt; "")?;
    came(rt, o.number, o.count, &answer)?;
    Ok(o.card)
}

fn opened(rt: &impl Print, card: Card) -> io::Result<Card> {
    let mut q = [0u8; 96];
    let n = ask::start(&mut q, 105, ask::ADMIN_SP);
    let m = ask::sealed(&mut q, Tsn(0), Hsn(0), n);
    println!(rt; "  payload {n}, total {m}")?;
    exchange(rt, card, &q)
}

fn ended(rt: &impl Print, card: Card) -> io::Result<Card> {
    exchange(rt, card, &packets::END)
}

pub(crate) fn run(rt: &impl Print) -> io::Result<()> {
    println!(rt;
        "The card's own answers: StartSession with HSN 105 and no options, the end of that session, and the end again"
    )?;
    let a = opened(rt, host::factory())?;
    let b = ended(rt, a)?;
    ended(rt, b)?;
    Ok(())
}
