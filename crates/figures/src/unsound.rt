// Number 1: every clause of soundness broken alone, by one change to a sound record, and its neighbour on the good side.
use crate::{ask, host, rows};
use model::{Card, Secret, Session};
use packet::{Hsn, Tsn};
use ranges::Row;
use std::io;

// The number that a StartSession on 0, 0 gets.
fn command(card: Card) -> u8 {
    let mut q = [0; 96];
    host::request(&mut q);
    let mut answer = [host::FILL; 2048];
    card::command(card, &q, &mut answer).number
}

// What every public call says to this record; a media question has no number, and gets 1 where it has no verdict.
fn tells(rt: &impl Print, what: &str, card: Card) -> io::Result<()> {
    let word = if record::sound(card) {
        "sound"
    } else {
        "unsound"
    };
    let command = command(card);
    let power = card::power_cycle(card).number;
    let reset = card::tper_reset(card).number;
    let media = u8::from(card::media(card, false, 0, 1).is_none());
    println!(rt;
        "  {what}: {word}, command {command}, power cycle {power}, TPER_RESET {reset}, media {media}"
    )
}

// The same of this record after a change.
fn changed<F: FnOnce(&mut Card)>(
    rt: &impl Print,
    what: &str,
    mut card: Card,
    change: F,
) -> io::Result<()>
    requires { F.IsAlwaysCallable change }
{
    change(&mut card);
    tells(rt, what, card)
}

fn sizes(rt: &impl Print, card: Card) -> io::Result<()> {
    println!(rt; "N from 262,144 to 2^40")?;
    changed(rt, "262,143", card, |c| c.cells.n = 262143)?;
    changed(rt, "262,144", card, |c| c.cells.n = 262144)?;
    changed(rt, "2^40", card, |c| c.cells.n = 1099511627776)?;
    changed(rt, "2^40 + 1", card, |c| c.cells.n = 1099511627777)
}

// What the factory says to N and an MSID.
fn made(rt: &impl Print, what: &str, n: u64, msid: &[u8]) -> io::Result<()> {
    let number = record::factory(n, msid).number;
    println!(rt; "  {what}: number {number}")
}

fn factory(rt: &impl Print) -> io::Result<()> {
    let pin = host::msid();
    println!(rt; "The factory: N, and the MSID's length")?;
    made(rt, "262,143", 262143, &pin)?;
    made(rt, "262,144", 262144, &pin)?;
    made(rt, "2^40", 1099511627776, &pin)?;
    made(rt, "2^40 + 1", 1099511627777, &pin)?;
    made(rt, "31 bytes", 262144, b"a PIN of thirty-one bytes is on")?;
    made(rt, "33 bytes", 262144, b"a PIN of thirty-three bytes is on")
}

fn counters(rt: &impl Print, card: Card) -> io::Result<()> {
    println!(rt; "Tries, the next TSN")?;
    changed(rt, "Tries 5", card, |c| c.cells.pins[12].tries = 5)?;
    changed(rt, "Tries 6", card, |c| c.cells.pins[12].tries = 6)?;
    changed(rt, "next TSN 1", card, |c| c.cells.next = Tsn(1))?;
    changed(rt, "next TSN 0", card, |c| c.cells.next = Tsn(0))
}

// Puts a range at start for length.
fn put(row: &mut Row, start: u64, length: u64) {
    row.start = start;
    row.length = length;
}

fn ranges(rt: &impl Print, card: Card) -> io::Result<()> {
    println!(rt; "Range 2 beside range 1 at 1,000 for 100, and at the end of the disk")?;
    for (what, start, length) in [
        ("at 1,100 for 1", 1100, 1),
        ("at 1,099 for 1", 1099, 1),
        ("at 999,999 for 1", 999999, 1),
        ("at 999,999 for 2", 999999, 2),
        ("at 1,000,000 for 0", 1000000, 0),
        ("at 1,000,001 for 0", 1000001, 0),
        ("at 2^64-1 for 2", u64::MAX, 2),
    ] {
        changed(rt, what, card, |c| {
            put(&mut c.cells.tables.rows[2], start, length);
        })?;
    }
    Ok(())
}

fn fixed(rt: &impl Print, card: Card) -> io::Result<()> {
    println!(rt; "The global row, and SID")?;
    changed(rt, "at 0 for 0", card, |c| {
        put(&mut c.cells.tables.rows[0], 0, 0);
    })?;
    changed(rt, "at 1 for 0", card, |c| {
        put(&mut c.cells.tables.rows[0], 1, 0);
    })?;
    changed(rt, "at 0 for 1", card, |c| {
        put(&mut c.cells.tables.rows[0], 0, 1);
    })?;
    changed(rt, "SID enabled", card, |c| {
        c.cells.tables.enabled[0] = true;
    })?;
    changed(rt, "SID disabled", card, |c| {
        c.cells.tables.enabled[0] = false;
    })
}

// A PIN of this length with one byte 31.
fn pin(len: u8, last: u8) -> Secret {
    let mut bytes = [0; 32];
    bytes[31] = last;
    Secret { bytes, len }
}

fn pins(rt: &impl Print, card: Card) -> io::Result<()> {
    println!(rt; "A PIN of 32 bytes at the most, and nothing after it")?;
    changed(rt, "length 32", card, |c| c.vault.live[12] = pin(32, 0))?;
    changed(rt, "length 33", card, |c| c.vault.live[12] = pin(33, 0))?;
    changed(rt, "length 32 and byte 31 not 0", card, |c| {
        c.vault.live[12] = pin(32, 1);
    })?;
    changed(rt, "length 31 and byte 31 not 0", card, |c| {
        c.vault.live[12] = pin(31, 1);
    })
}

fn closed(rt: &impl Print, card: Card) -> io::Result<()> {
    println!(rt; "No session")?;
    tells(rt, "nothing left over", card)?;
    changed(rt, "a TSN left over", card, |c| {
        c.cells.session.tsn = Tsn(1);
    })?;
    changed(rt, "an HSN left over", card, |c| {
        c.cells.session.hsn = Hsn(105);
    })?;
    changed(rt, "the SP left over", card, |c| {
        c.cells.session.locking = true;
    })?;
    changed(rt, "SID proved", card, |c| c.cells.session.proved[0] = true)?;
    changed(rt, "User8 proved", card, |c| {
        c.cells.session.proved[12] = true;
    })
}

// A session to the Admin SP, or to the Locking SP.
fn proved(rt: &impl Print, card: Card) -> io::Result<()> {
    changed(rt, "SID proved", card, |c| c.cells.session.proved[0] = true)?;
    changed(rt, "Admin1 proved", card, |c| {
        c.cells.session.proved[1] = true;
    })?;
    changed(rt, "User8 proved", card, |c| {
        c.cells.session.proved[12] = true;
    })
}

fn admin(rt: &impl Print, card: Card) -> io::Result<()> {
    println!(rt; "A session to the Admin SP")?;
    proved(rt, card)
}

fn locking(rt: &impl Print, card: Card) -> io::Result<()> {
    println!(rt; "A session to the Locking SP")?;
    changed(rt, "TSN 1", card, |c| c.cells.session.tsn = Tsn(1))?;
    changed(rt, "TSN 0", card, |c| c.cells.session.tsn = Tsn(0))?;
    changed(rt, "the SP active", card, |c| c.cells.tables.active = true)?;
    changed(rt, "the SP inactive", card, |c| {
        c.cells.tables.active = false;
    })?;
    proved(rt, card)
}

// A transaction in Admin1's session, and the session of a record that has none.
fn transaction(rt: &impl Print, card: Card, none: Session) -> io::Result<()> {
    println!(rt; "A transaction, and what it would put back")?;
    tells(rt, "in a session", card)?;
    changed(rt, "in none", card, |c| c.cells.session = none)?;
    changed(rt, "range 2 at 1,100 for 1", card, |c| {
        put(&mut c.cells.undo.was.rows[2], 1100, 1);
    })?;
    changed(rt, "range 2 at 1,099 for 1", card, |c| {
        put(&mut c.cells.undo.was.rows[2], 1099, 1);
    })?;
    changed(rt, "range 2 at 999,999 for 2", card, |c| {
        put(&mut c.cells.undo.was.rows[2], 999999, 2);
    })?;
    changed(rt, "the global row at 1 for 0", card, |c| {
        put(&mut c.cells.undo.was.rows[0], 1, 0);
    })?;
    changed(rt, "the Locking SP inactive", card, |c| {
        c.cells.undo.was.active = false;
    })?;
    changed(rt, "SID disabled", card, |c| {
        c.cells.undo.was.enabled[0] = false;
    })?;
    changed(rt, "a PIN of 32 bytes", card, |c| {
        c.vault.kept[12] = pin(32, 0);
    })?;
    changed(rt, "a PIN of 33 bytes", card, |c| {
        c.vault.kept[12] = pin(33, 0);
    })
}

fn none_kept(rt: &impl Print, card: Card) -> io::Result<()> {
    println!(rt; "No transaction, and something kept")?;
    tells(rt, "nothing", card)?;
    changed(rt, "a start", card, |c| c.cells.undo.was.rows[2].start = 1)?;
    changed(rt, "a length", card, |c| {
        c.cells.undo.was.rows[2].length = 1;
    })?;
    changed(rt, "the Locking SP active", card, |c| {
        c.cells.undo.was.active = true;
    })?;
    changed(rt, "SID enabled", card, |c| {
        c.cells.undo.was.enabled[0] = true;
    })?;
    changed(rt, "a PIN of no bytes", card, |c| {
        c.vault.kept[12] = pin(0, 0);
    })?;
    changed(rt, "a PIN of one byte", card, |c| {
        c.vault.kept[12] = pin(1, 0);
    })?;
    changed(rt, "a byte after a PIN of none", card, |c| {
        c.vault.kept[12] = pin(0, 1);
    })
}

// With no session open.
fn alone(rt: &impl Print, card: Card) -> io::Result<()> {
    sizes(rt, card)?;
    counters(rt, card)?;
    ranges(rt, card)?;
    fixed(rt, card)?;
    pins(rt, card)?;
    closed(rt, card)?;
    none_kept(rt, card)
}

pub(crate) fn run(rt: &impl Print) -> io::Result<()> {
    println!(rt; "Number 1: sound records, to be changed")?;
    let sid = host::as_sid(rt, host::factory())?;
    let ready = host::sets(rt, "TPER_RESET enabled", sid, ask::TPER_INFO, &[(8, 1)])?;
    let still = host::ends(rt, ready)?;
    let placed = rows::placed(rt, still)?;
    let within = host::begins(rt, placed)?;
    let shut = host::ends(rt, placed)?;
    alone(rt, shut)?;
    admin(rt, ready)?;
    locking(rt, placed)?;
    transaction(rt, within, shut.cells.session)?;
    factory(rt)
}
