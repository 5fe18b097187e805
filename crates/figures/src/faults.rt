// The four faults that an honest hand makes, each with a run that would show it.
use crate::{ask, host, rows};
use model::Card;
use std::io;

fn wrap(rt: &impl Print, card: Card) -> io::Result<Card> {
    println!(rt; "Start and length added without wrap")?;
    let a = host::spans(
        rt,
        "range 2 at 2^64-1 for 2",
        card,
        ask::RANGE2,
        u64::MAX,
        2,
    )?;
    let b = host::spans(rt, "range 2 at 2 for 2^64-1", a, ask::RANGE2, 2, u64::MAX)?;
    rows::reads(rt, b, u64::MAX, 2)?;
    Ok(b)
}

fn whole_row(rt: &impl Print, card: Card) -> io::Result<Card> {
    println!(rt; "Overlap judged on the row as it would stand, not cell by cell")?;
    let a = host::spans(rt, "range 2 at 2,000 for 50", card, ask::RANGE2, 2000, 50)?;
    let b = host::spans(
        rt,
        "range 2 at 1,050 for 0, start first",
        a,
        ask::RANGE2,
        1050,
        0,
    )?;
    let c = host::sets(
        rt,
        "range 2 at 2,000 for 50, length first",
        b,
        ask::RANGE2,
        &[(4, 50), (3, 2000)],
    )?;
    let d = host::spans(rt, "range 2 at 900 for 1", c, ask::RANGE2, 900, 1)?;
    let e = host::sets(rt, "its start alone to 999", d, ask::RANGE2, &[(3, 999)])?;
    let f = host::spans(rt, "back at 900 for 1", e, ask::RANGE2, 900, 1)?;
    let g = host::sets(rt, "its length alone to 100", f, ask::RANGE2, &[(4, 100)])?;
    let h = host::spans(rt, "back at 900 for 1", g, ask::RANGE2, 900, 1)?;
    host::spans(rt, "both in one Set", h, ask::RANGE2, 999, 100)
}

fn tries(rt: &impl Print) -> io::Result<()> {
    println!(rt; "Tries not rolled back with the transaction")?;
    let a = host::as_sid(rt, host::factory())?;
    let b = host::begins(rt, a)?;
    let c = host::proves(
        rt,
        "Authenticate of SID with a wrong PIN",
        b,
        ask::SID,
        b"wrong",
    )?;
    let d = host::gets(rt, "Tries", c, ask::PIN_SID, 6, 6)?;
    let e = host::abandons(rt, d)?;
    let f = host::gets(rt, "Tries", e, ask::PIN_SID, 6, 6)?;
    host::ends(rt, f)?;
    Ok(())
}

fn hidden(rt: &impl Print) -> io::Result<()> {
    println!(rt; "A hidden column left out of Get, which is no refusal")?;
    let a = host::as_sid(rt, host::factory())?;
    let b = host::gets(rt, "column 3 of C_PIN_SID, the PIN", a, ask::PIN_SID, 3, 3)?;
    let c = host::gets(rt, "columns 0 to 7 of C_PIN_SID", b, ask::PIN_SID, 0, 7)?;
    host::gets(rt, "column 3 of C_PIN_MSID", c, ask::PIN_MSID, 3, 3)?;
    Ok(())
}

pub(crate) fn run(rt: &impl Print) -> io::Result<()> {
    println!(rt; "Admin1 again")?;
    let a = wrap(rt, rows::placed(rt, host::factory())?)?;
    whole_row(rt, a)?;
    tries(rt)?;
    hidden(rt)
}
