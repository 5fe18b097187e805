// Locking ranges: no two share a sector, every sector has one owner, and a transfer passes where no owner is locked.
#![tactic(auto)]

ghost use Rattle.std.specs.Prelude.{◌≡◌, true, ℕ, ◌+◌, ◌<◌, ◌≤◌, ltb, unwrap_or};
ghost use Rattle.ranges.specs.Decides.{Decides, imp};
ghost use Rattle.ranges.specs.Row.{Holds, holds_b};
ghost use Rattle.ranges.specs.Fit.{Apart, Fit};
ghost use Rattle.ranges.specs.Set.{edited, edited_row, keeps_span, judged_of};
ghost use Rattle.ranges.specs.Owner.{owner_of};
ghost use Rattle.ranges.specs.Media.{barred_b, clear_b, shadowed, shadow_of, media_of};
ghost use Rattle.ranges.specs.Reset.{reset_rows, reset_mbr};
ghost use Rattle.ranges.specs.Laws.{FitDecided, FitKept, OneOwner, Shares, ClearDecided};
ghost use Rattle.ranges.specs.Exact.{MediaAsSaid};

// The global range and the others. `row_count` of specs/Row.antt is the same number.
pub const ROWS: usize = 5;

// The first sector past the shadow.
const SHADOW_END: u64 = 262144;

#[derive(Clone, Copy)]
pub struct Row {
    pub start: u64,
    pub length: u64,
    pub read_enabled: bool,
    pub write_enabled: bool,
    pub read_locked: bool,
    pub write_locked: bool,
    // LockOnReset: {0, 3} if set, {0} if not
    pub lock_on_program: bool,
}

// The MBRControl row.
#[derive(Clone, Copy)]
pub struct Mbr {
    pub enable: bool,
    pub done: bool,
    // DoneOnReset: {0, 3} if set, {0} if not
    pub done_on_program: bool,
}

// What a Set asks for: columns 3 to 9, each left out or its new value.
#[derive(Clone, Copy)]
pub struct Edit {
    pub start: Option<u64>,
    pub length: Option<u64>,
    pub read_enabled: Option<bool>,
    pub write_enabled: Option<bool>,
    pub read_locked: Option<bool>,
    pub write_locked: Option<bool>,
    pub lock_on_program: Option<bool>,
}

#[derive(Clone, Copy)]
pub enum Verdict {
    Disk,
    Shadow,
    Refused,
}

// The start and the length, as whole numbers, sum to at most n.
fn within(start: u64, length: u64, n: u64) -> bool
    ensures { Decides result (start + length ≤ n) }
{
    start <= n && length <= n - start
}

// No sector lies in both.
fn apart(a: Row, b: Row) -> bool
    ensures { Decides result (Apart a b) }
{
    if a.length == 0 || b.length == 0 {
        return true;
    }
    if a.start <= b.start {
        a.length <= b.start - a.start
    } else {
        b.length <= a.start - b.start
    }
}

// No two non-global rows share a sector, and each ends within n.
pub fn fits(rows: [Row; ROWS], n: u64) -> bool
    ensures { Decides result (Fit rows n) }
{
    let mut ok = true;
    'pairs: for i in 1..ROWS {
        let a = rows[i];
        if !within(a.start, a.length, n) {
            ok = false;
            break 'pairs;
        }
        for b in &rows[1..i] {
            if !apart(a, *b) {
                ok = false;
                break 'pairs;
            }
        }
    }
    ok
}

// A flag after a Set.
pub fn new_flag(old: bool, to: Option<bool>) -> bool
    ensures { result ≡ unwrap_or to old }
{
    to.unwrap_or(old)
}

// The row as it would stand.
#[tactic(auto, unfolding(crate::specs::Set::edited_row))]
fn edit_row(r: Row, e: Edit) -> Row
    ensures { result ≡ edited_row r e }
{
    Row {
        start: e.start.unwrap_or(r.start),
        length: e.length.unwrap_or(r.length),
        read_enabled: new_flag(r.read_enabled, e.read_enabled),
        write_enabled: new_flag(r.write_enabled, e.write_enabled),
        read_locked: new_flag(r.read_locked, e.read_locked),
        write_locked: new_flag(r.write_locked, e.write_locked),
        lock_on_program: new_flag(r.lock_on_program, e.lock_on_program),
    }
}

// The edit leaves start and length out.
fn keeps_span(e: Edit) -> bool
    ensures { result ≡ keeps_span e }
{
    e.start.is_none() && e.length.is_none()
}

// The edit does not move row 0.
fn spares(k: usize, e: Edit) -> bool
    ensures { result ≡ imp (ltb k 1) (keeps_span e) }
{
    k >= 1 || keeps_span(e)
}

// The rows with one of them edited; a row that is not there changes nothing.
pub fn edited(rows: [Row; ROWS], k: usize, e: Edit) -> [Row; ROWS]
    ensures { result ≡ edited rows k e }
{
    let mut next = rows;
    if k < ROWS {
        next[k] = edit_row(rows[k], e);
    }
    next
}

// All or nothing: the rows as they would stand, or `None` where they are not allowed.
pub fn set(rows: [Row; ROWS], k: usize, e: Edit, n: u64) -> Option<[Row; ROWS]>
    ensures { result ≡ judged_of rows k e n }
{
    if k >= ROWS || !spares(k, e) {
        return None;
    }
    let next = edited(rows, k, e);
    fits(next, n).then_some(next)
}

// The sector lies in the row.
fn holds(a: Row, s: u64) -> bool
    ensures { Decides result (Holds a s) }
{
    a.start <= s && s - a.start < a.length
}

// The row that owns the sector: 0 is the global range.
#[tactic(auto, unfolding(crate::specs::Owner::owner_below))]
pub fn owner(rows: [Row; ROWS], s: u64) -> usize
    ensures { result ≡ owner_of rows s }
{
    let mut got: usize = 0;
    for i in 1..ROWS {
        if holds(rows[i], s) {
            got = i;
        }
    }
    got
}

// The row is enabled and locked for the direction.
#[tactic(auto, unfolding(crate::specs::Media::barred_b))]
fn barred(a: Row, write: bool) -> bool
    ensures { result ≡ barred_b a write }
{
    if write {
        a.write_enabled && a.write_locked
    } else {
        a.read_enabled && a.read_locked
    }
}

// The row's first border past at, or e where none comes before it: up to there it holds each sector or none.
fn border(a: Row, at: u64, e: u64) -> u64
    requires { at < e }
    ensures { (at < result) × (result ≤ e) × ((s : ℕ) → at ≤ s → s < result → holds_b a s ≡ holds_b a at) }
{
    if at < a.start {
        return a.start.min(e);
    }
    let into = at - a.start;
    if into < a.length {
        at + (a.length - into).min(e - at)
    } else {
        e
    }
}

// The end of a run of sectors, from at on and up to e, that have one owner.
#[tactic(auto, unfolding(crate::specs::Owner::owner_below))]
fn run_end(rows: [Row; ROWS], at: u64, e: u64) -> u64
    requires { at < e }
    ensures { (at < result) × (result ≤ e) × ((s : ℕ) → at ≤ s → s < result → owner_of rows s ≡ owner_of rows at) }
{
    let mut end = e;
    for a in &rows[1..] {
        end = border(*a, at, end);
    }
    end
}

// No touched sector's owner is enabled and locked, judged run by run.
fn clear(rows: [Row; ROWS], write: bool, start: u64, count: u64) -> bool
    requires { start + count < 18446744073709551616 }
    ensures { result ≡ clear_b rows write start count }
{
    let end = start + count;
    let mut at = start;
    // stays a while: each step goes to the end of a run, wherever that is
    while at < end {
        let o = owner(rows, at);
        if barred(rows[o], write) {
            return false;
        }
        at = run_end(rows, at, end);
    }
    true
}

// May count sectors from start on be read, or written, and from where.
#[tactic(auto, unfolding(crate::specs::Media::media_of))]
pub fn media(
    rows: [Row; ROWS],
    mbr: Mbr,
    active: bool,
    n: u64,
    write: bool,
    start: u64,
    count: u64,
) -> Verdict
    ensures { result ≡ media_of rows mbr active n write start count }
{
    if !within(start, count, n) {
        return Verdict::Refused;
    }
    if count == 0 || !active {
        return Verdict::Disk;
    }
    if shadow_from(mbr, start) {
        return in_shadow(write, start, count);
    }
    if clear(rows, write, start, count) {
        Verdict::Disk
    } else {
        Verdict::Refused
    }
}

// The shadow is on, and a transfer from start on touches it.
fn shadow_from(mbr: Mbr, start: u64) -> bool
    ensures { result ≡ shadowed mbr start }
{
    mbr.enable && !mbr.done && start < SHADOW_END
}

// A transfer that touches the shadow.
#[tactic(auto, unfolding(crate::specs::Media::shadow_of))]
fn in_shadow(write: bool, start: u64, count: u64) -> Verdict
    ensures { result ≡ shadow_of write start count }
{
    if !write && within(start, count, SHADOW_END) {
        Verdict::Shadow
    } else {
        Verdict::Refused
    }
}

// The rows after a power cycle or a TPER_RESET.
#[tactic(auto, unfolding(crate::specs::Reset::reset_rows))]
pub fn reset_rows(active: bool, rows: [Row; ROWS]) -> [Row; ROWS]
    ensures { result ≡ reset_rows active rows }
{
    if !active {
        return rows;
    }
    rows.map(|r| Row {
        read_locked: true,
        write_locked: true,
        ..r
    })
}

// The MBRControl row after one.
#[tactic(auto, unfolding(crate::specs::Reset::reset_mbr))]
pub fn reset_mbr(active: bool, m: Mbr) -> Mbr
    ensures { result ≡ reset_mbr active m }
{
    Mbr {
        done: m.done && !active,
        ..m
    }
}

// The test of the rows is the statement over sectors.
pub fn law_fit()
    ensures { FitDecided }
{}

// Rows that fit still fit after a Set and after a reset.
pub fn law_fit_kept()
    ensures { FitKept }
{}

// Every sector has exactly one owner.
pub fn law_owner()
    ensures { OneOwner }
{}

// The shares, counted sector by sector, add up to N.
pub fn law_shares()
    ensures { Shares }
{}

// A transfer is clear exactly if each touched sector's owner lets it pass.
pub fn law_clear()
    ensures { ClearDecided }
{}

// The media's verdict is the first of document 01's chain that applies.
pub fn law_media()
    ensures { MediaAsSaid }
{}
