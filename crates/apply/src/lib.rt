// What a decision does to the cells, and what the resets do.
#![tactic(auto)]

ghost use Rattle.std.specs.Prelude.{◌≡◌, set};
ghost use Rattle.model.specs.declared.Change.TheVariants as C;
ghost use Rattle.model.specs.declared.Decision.TheVariants as D;
ghost use Rattle.model.specs.Record.{with_tables, with_enabled, with_pins, with_session, with_tries, pin_row_at, restored_locking, no_session};
ghost use Rattle.model.specs.Apply.{settled_tables, closed, ended, next_tsn, missed, cleared, edited_mbr, locking_tries, change, apply, relocked, tper_reset, power_cycle};

use model::{Cells, Change, Decision, MbrEdit, PINS, PinRow, Session, Tables, Undo, Who};
use packet::{Hsn, Tsn};
use ranges::Mbr;

// ---- the PIN rows

// With the public part of a PIN row put anew.
fn put_row(mut c: Cells, r: usize, row: PinRow) -> Cells
    ensures { result ≡ with_pins c (set c.pins r row) }
{
    if r < PINS {
        c.pins[r] = row;
    }
    c
}

fn pin_row(c: Cells, r: usize) -> PinRow
    ensures { result ≡ pin_row_at c.pins r }
{
    c.pins.get(r).copied().unwrap_or(PinRow { tries: 0 })
}

// A wrong PIN counts.
fn miss(c: Cells, r: usize) -> Cells
    ensures { result ≡ missed c r }
{
    put_row(c, r, pin_row(c, r).missed())
}

// A right one, and a new one, clears the count.
fn clear(c: Cells, r: usize) -> Cells
    ensures { result ≡ with_tries c r 0 }
{
    put_row(c, r, pin_row(c, r).cleared())
}

#[tactic(auto, unfolding(model::specs::Apply::cleared))]
fn clear_who(c: Cells, who: Who) -> Cells
    ensures { result ≡ cleared c who }
{
    match who {
        Who::Row(r) => clear(c, r),
        _ => c,
    }
}

// Every row of the Locking SP; SID's stays.
fn locking_tries(pins: [PinRow; PINS]) -> [PinRow; PINS]
    ensures { result ≡ locking_tries pins }
{
    let mut l = fresh::no_tries();
    l[0] = pins[0];
    l
}

// ---- the session

// "TSNs run 1, 2, ..., FFFFFFFF, then 1"
fn next_tsn(x: Tsn) -> Tsn
    ensures { result ≡ next_tsn x }
{
    Tsn(x.0.checked_add(1).unwrap_or(1))
}

#[tactic(auto, unfolding(model::specs::Apply::apply))]
fn start(c: Cells, locking: bool, hsn: Hsn, who: Who) -> Cells
    ensures { result ≡ apply c (D.Started locking hsn who) }
{
    let opened = Session {
        live: true,
        locking,
        tsn: c.next,
        hsn,
        proved: [false; PINS],
    };
    Cells {
        session: opened.proving(who),
        next: next_tsn(c.next),
        ..clear_who(c, who)
    }
}

#[tactic(auto, unfolding(model::specs::Apply::apply))]
fn prove(c: Cells, who: Who) -> Cells
    ensures { result ≡ apply c (D.Proved who) }
{
    Cells {
        session: c.session.proving(who),
        ..clear_who(c, who)
    }
}

// No session is open, and nobody is proved.
fn log_out(c: Cells) -> Cells
    ensures { result ≡ with_session c no_session }
{
    Cells {
        session: fresh::no_session(),
        ..c
    }
}

// ---- transactions

// The tables that stand when an open transaction, if there is one, is given up.
pub fn settled_tables(c: Cells) -> Tables
    ensures { result ≡ settled_tables c }
{
    if c.undo.live {
        return c.undo.was;
    }
    c.tables
}

#[tactic(auto, unfolding(model::specs::Apply::apply))]
fn begin(c: Cells) -> Cells
    ensures { result ≡ apply c D.Began }
{
    Cells {
        undo: Undo {
            live: true,
            was: c.tables,
        },
        ..c
    }
}

// With no transaction, and these tables.
fn close(c: Cells, tables: Tables) -> Cells
    ensures { result ≡ closed c tables }
{
    Cells {
        tables,
        undo: fresh::no_undo(),
        ..c
    }
}

#[tactic(auto, unfolding(model::specs::Apply::apply))]
fn abandon(c: Cells) -> Cells
    ensures { result ≡ apply c D.Abandoned }
{
    close(c, c.undo.was)
}

// The session ends, "abandoning its transaction".
fn end(c: Cells) -> Cells
    ensures { result ≡ ended c }
{
    log_out(close(c, settled_tables(c)))
}

// ---- the changes

fn edit_mbr(m: Mbr, e: MbrEdit) -> Mbr
    ensures { result ≡ edited_mbr m e }
{
    Mbr {
        enable: ranges::new_flag(m.enable, e.enable),
        done: ranges::new_flag(m.done, e.done),
        done_on_program: ranges::new_flag(m.done_on_program, e.done_on_program),
    }
}

fn with_tables(c: Cells, tables: Tables) -> Cells
    ensures { result ≡ with_tables c tables }
{
    Cells { tables, ..c }
}

fn enable(mut t: Tables, r: usize, on: bool) -> Tables
    ensures { result ≡ with_enabled t r on }
{
    if r < PINS {
        t.enabled[r] = on;
    }
    t
}

// The Locking SP as it comes, its PIN rows too.
fn restore_locking(c: Cells) -> Cells
    ensures { result ≡ with_pins (with_tables c (restored_locking c.tables)) (locking_tries c.pins) }
{
    Cells {
        tables: fresh::restored_locking(c.tables),
        pins: locking_tries(c.pins),
        ..c
    }
}

#[tactic(auto, unfolding(model::specs::Apply::change))]
fn restore_both(c: Cells) -> Cells
    ensures { result ≡ change c C.RevertAdmin }
{
    log_out(Cells {
        tables: fresh::factory_tables(),
        pins: fresh::no_tries(),
        ..c
    })
}

#[tactic(auto, unfolding(model::specs::Apply::change))]
fn make(c: Cells, x: Change) -> Cells
    ensures { result ≡ change c x }
{
    let t = c.tables;
    match x {
        Change::Nothing => c,
        Change::PutPin { row, .. } => clear(c, row),
        Change::PutEnabled { row, on } => with_tables(c, enable(t, row, on)),
        Change::PutRange { row, edit } => {
            let rows = ranges::edited(t.rows, row, edit);
            with_tables(c, Tables { rows, ..t })
        }
        Change::PutMbr(e) => {
            let mbr = edit_mbr(t.mbr, e);
            with_tables(c, Tables { mbr, ..t })
        }
        Change::PutResettable(resettable) => with_tables(c, Tables { resettable, ..t }),
        Change::Activate => with_tables(c, Tables { active: true, ..t }),
        Change::RevertLocking => restore_locking(c),
        Change::RevertAdmin => restore_both(c),
        Change::RevertSp => log_out(restore_locking(c)),
    }
}

// What a decision does to the cells.
#[tactic(auto, unfolding(model::specs::Apply::apply))]
pub fn apply(c: Cells, d: Decision) -> Cells
    ensures { result ≡ apply c d }
{
    match d {
        Decision::Missed(r) | Decision::Mistaken(r) => miss(c, r),
        Decision::Started { locking, hsn, who } => start(c, locking, hsn, who),
        Decision::Proved(who) => prove(c, who),
        Decision::Done(x) => make(c, x),
        Decision::Began => begin(c),
        Decision::Committed => close(c, c.tables),
        Decision::Abandoned => abandon(c),
        Decision::Ended | Decision::Broke => end(c),
        _ => c,
    }
}

// ---- resets

// "if Locking is active, sets columns 7 and 8 of every row and clears Done"
fn relock(t: Tables) -> Tables
    ensures { result ≡ relocked t }
{
    Tables {
        rows: ranges::reset_rows(t.active, t.rows),
        mbr: ranges::reset_mbr(t.active, t.mbr),
        ..t
    }
}

// TPER_RESET, where it is enabled.
pub fn tper_reset(c: Cells) -> Cells
    ensures { result ≡ tper_reset c }
{
    Cells {
        tables: relock(settled_tables(c)),
        ..end(c)
    }
}

// A power cycle does the same, and starts Tries and TSNs anew.
pub fn power_cycle(c: Cells) -> Cells
    ensures { result ≡ power_cycle c }
{
    let mut cycled = tper_reset(c);
    cycled.pins = fresh::no_tries();
    cycled.next = Tsn(1);
    cycled
}
