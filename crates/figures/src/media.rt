// The figures on ranges: a disk of 1,000,000 sectors, with range 1 at 1,000 for 100.
use ranges::{Edit, Mbr, ROWS, Row, Verdict};
use std::io;

fn row(start: u64, length: u64) -> Row {
    Row {
        start,
        length,
        read_enabled: false,
        write_enabled: false,
        read_locked: false,
        write_locked: false,
        lock_on_program: false,
    }
}

// Range 1 at 1,000 for 100, and nothing else.
fn rows() -> [Row; ROWS] {
    let mut rows = [row(0, 0); ROWS];
    rows[1] = row(1000, 100);
    rows
}

fn span(start: u64, length: u64) -> Edit {
    Edit {
        start: Some(start),
        length: Some(length),
        read_enabled: None,
        write_enabled: None,
        read_locked: None,
        write_locked: None,
        lock_on_program: None,
    }
}

fn put(rt: &impl Print, k: usize, start: u64, length: u64, n: u64) -> io::Result<()> {
    let j = ranges::set(rows(), k, span(start, length), n);
    let word = if j.is_some() { "allowed" } else { "refused" };
    println!(rt; "  range {k} at {start} for {length} is {word}")
}

pub(crate) fn said(rt: &impl Print, v: Verdict) -> io::Result<()> {
    match v {
        Verdict::Disk => println!(rt; " is from disk"),
        Verdict::Shadow => println!(rt; " is from the shadow"),
        Verdict::Refused => println!(rt; " is refused"),
    }
}

fn transfer(
    rt: &impl Print,
    rows: [Row; ROWS],
    mbr: Mbr,
    write: bool,
    start: u64,
    count: u64,
) -> io::Result<()> {
    let what = if write { "write" } else { "read" };
    print!(rt; "  a {what} of {count} at {start}")?;
    said(
        rt,
        ranges::media(rows, mbr, true, 1000000, write, start, count),
    )
}

pub(crate) fn run(rt: &impl Print) -> io::Result<()> {
    let most = u64::MAX;
    println!(rt; "Range 2 beside range 1")?;
    put(rt, 2, 1100, 1, 1000000)?;
    put(rt, 2, 1099, 1, 1000000)?;
    put(rt, 2, 1050, 0, 1000000)?;
    put(rt, 2, 999999, 1, 1000000)?;
    put(rt, 2, 1000000, 1, 1000000)?;
    put(rt, 2, most, 2, 1000000)?;
    println!(rt; "Numbers at their ends, a row that is not there, the global row")?;
    put(rt, 2, most, most, 1000000)?;
    put(rt, 2, 0, most, 1099511627776)?;
    put(rt, 2, most, 0, 1099511627776)?;
    put(rt, 2, 1100, 261044, 262144)?;
    put(rt, 2, 1100, 261045, 262144)?;
    put(rt, ROWS, 0, 0, 1000000)?;
    put(rt, 0, 0, 1, 1000000)?;
    println!(rt; "Shadow on")?;
    let on = Mbr {
        enable: true,
        done: false,
        done_on_program: false,
    };
    transfer(rt, rows(), on, false, 262143, 1)?;
    transfer(rt, rows(), on, false, 262143, 2)?;
    transfer(rt, rows(), on, false, 262144, 1)?;
    transfer(rt, rows(), on, true, 262143, 1)?;
    println!(rt; "Shadow off, range 1 locked for reading")?;
    let off = Mbr {
        enable: false,
        ..on
    };
    let mut locked = rows();
    locked[1].read_enabled = true;
    locked[1].read_locked = true;
    transfer(rt, locked, off, false, 990, 10)?;
    transfer(rt, locked, off, false, 990, 11)?;
    transfer(rt, locked, off, false, 1099, 2)?;
    transfer(rt, locked, off, false, 1100, 998900)?;
    transfer(rt, locked, off, true, 0, 1000000)?;
    transfer(rt, locked, off, false, 0, 0)?;
    transfer(rt, locked, off, false, 1000000, 1)?;
    transfer(rt, locked, off, false, 1, most)?;
    transfer(rt, locked, off, false, most, 1)
}
