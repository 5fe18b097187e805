// The figures on ranges and the shadow, through the card: 1,000,000 sectors, range 1 at 1,000 for 100.
use crate::{ask, host, media};
use model::Card;
use std::io;

// A media question and its answer.
pub(crate) fn reads(rt: &impl Print, card: Card, start: u64, count: u64) -> io::Result<()> {
    print!(rt; "  a read of {count} at {start}")?;
    match card::media(card, false, start, count) {
        None => println!(rt; " is asked of an unsound record"),
        Some(v) => media::said(rt, v),
    }
}

// Admin1's session with range 1 placed.
pub(crate) fn placed(rt: &impl Print, card: Card) -> io::Result<Card> {
    let a = host::as_admin1(rt, card)?;
    host::spans(rt, "range 1 at 1,000 for 100", a, ask::RANGE1, 1000, 100)
}

// Range 2 beside range 1.
fn beside(rt: &impl Print, card: Card) -> io::Result<Card> {
    let a = host::spans(rt, "range 2 at 1,100 for 1", card, ask::RANGE2, 1100, 1)?;
    let b = host::spans(rt, "range 2 at 1,099 for 1", a, ask::RANGE2, 1099, 1)?;
    let c = host::gets(rt, "range 2 is still", b, ask::RANGE2, 3, 4)?;
    let d = host::spans(rt, "range 2 at 1,050 for 0", c, ask::RANGE2, 1050, 0)?;
    let e = host::spans(rt, "range 2 at 999,999 for 1", d, ask::RANGE2, 999999, 1)?;
    let f = host::spans(rt, "range 2 at 1,000,000 for 1", e, ask::RANGE2, 1000000, 1)?;
    let g = host::spans(rt, "range 2 at 2^64-1 for 2", f, ask::RANGE2, u64::MAX, 2)?;
    host::gets(rt, "range 2 is still", g, ask::RANGE2, 3, 4)
}

// Enable is column 1 of MBRControl, Done column 2.
fn shadow(rt: &impl Print, card: Card) -> io::Result<()> {
    reads(rt, card, 262143, 1)?;
    let a = host::sets(rt, "Enable", card, ask::MBR_CONTROL, &[(1, 1)])?;
    reads(rt, a, 262143, 1)?;
    reads(rt, a, 262143, 2)?;
    let b = host::sets(rt, "Done", a, ask::MBR_CONTROL, &[(2, 1)])?;
    reads(rt, b, 262143, 2)
}

pub(crate) fn run(rt: &impl Print) -> io::Result<()> {
    println!(rt; "Range 2 beside range 1, through the card")?;
    let card = beside(rt, placed(rt, host::factory())?)?;
    println!(rt; "Shadow on, through the card")?;
    shadow(rt, card)
}
