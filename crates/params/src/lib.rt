// The parameters of each method. Where a parameter is bytes, its place is that of the request.
#![tactic(auto)]

ghost use Rattle.std.specs.Prelude.{◌≡◌, true, false, ◌&&◌, eqb, Ok, None};
ghost use Rattle.value.specs.Value.{list};
ghost use Rattle.value.specs.Read.{values_at};
ghost use Rattle.item.specs.Item.{step_at};
ghost use Rattle.params.specs.Names.{given, nothing, is_int, is_bytes, is_uid, or_left_out, int_of, uid_of};
ghost use Rattle.params.specs.Columns.{empty, free, put_column, put_items};
ghost use Rattle.params.specs.Steps.{first_of, taken_of};
ghost use Rattle.params.specs.Params.{no_columns, block_of, block_in, get_of, set_of, start_from, start_of, proof_from, proof_of, resets_at};
ghost use Rattle.params.specs.Exact.{ParametersAsSaid};

use item::{Item, Slot};
use packet::Hsn;

// How many columns a table has at the most. `column_count` of specs/Columns.antt is the same number.
pub const COLUMNS: usize = 20;

// A cell block: the start column and the end column, each an integer or absent.
#[derive(Clone, Copy)]
pub struct Block {
    pub start: Slot,
    pub end: Slot,
}

// The first offence in a Set's list of columns.
#[derive(Clone, Copy, PartialEq, Eq)]
pub enum Offence {
    Broken,
    Unknown,
    Repeated,
}

// The columns of a Set by their numbers.
#[derive(Clone, Copy)]
pub struct Columns {
    pub rows: [Slot; COLUMNS],
}

// The parameters of StartSession: the challenge is bytes or absent, the authority eight bytes or absent.
#[derive(Clone, Copy)]
pub struct Start {
    pub hsn: Hsn,
    pub sp: u64,
    pub write: u64,
    pub challenge: Slot,
    pub authority: Slot,
}

// The parameters of Authenticate: the proof is bytes or absent.
#[derive(Clone, Copy)]
pub struct Proof {
    pub authority: u64,
    pub proof: Slot,
}

// A set of reset types.
#[derive(Clone, Copy, PartialEq, Eq)]
pub enum Resets {
    // {0}
    Power,
    // {0, 3}
    Program,
}

// A value seen flat, and where the next one stands.
#[derive(Clone, Copy)]
struct Taken {
    slot: Slot,
    next: usize,
}

// The next value of a list, or none where it ends.
#[tactic(auto, unfolding(crate::specs::Steps::first_of))]
fn first(s: &[u8], at: usize, depth: usize) -> Taken
    ensures { result ≡ first_of at (step_at s.now depth at) }
{
    match item::step(s, at, depth) {
        Item::Plain { slot, next } => Taken { slot, next },
        Item::Named { next, .. } => Taken {
            slot: Slot::Named,
            next,
        },
        Item::Shut(_) | Item::Broken => Taken {
            slot: Slot::Absent,
            next: at,
        },
    }
}

// The optional parameter n, where it comes next.
#[tactic(auto, unfolding(crate::specs::Steps::taken_of))]
fn take(s: &[u8], at: usize, depth: usize, n: u64) -> Taken
    ensures { result ≡ taken_of n at (step_at s.now depth at) }
{
    match item::step(s, at, depth) {
        Item::Named { name, slot, next } if name == n => Taken { slot, next },
        _ => Taken {
            slot: Slot::Absent,
            next: at,
        },
    }
}

// The list ends here.
fn last(s: &[u8], at: usize, depth: usize) -> bool
    ensures { result ≡ given false nothing (values_at s.now depth at) }
{
    value::mark_at(s, at, 0xf1).is_some()
}

// Kinds of values.
#[tactic(auto, unfolding(crate::specs::Columns::free))]
fn left_out(x: Slot) -> bool
    ensures { result ≡ free x }
{
    matches!(x, Slot::Absent)
}

#[tactic(auto, unfolding(crate::specs::Names::is_int))]
fn is_int(x: Slot) -> bool
    ensures { result ≡ is_int x }
{
    matches!(x, Slot::Int(_))
}

#[tactic(auto, unfolding(crate::specs::Names::is_bytes))]
fn is_bytes(x: Slot) -> bool
    ensures { result ≡ is_bytes x }
{
    matches!(x, Slot::Bytes { .. })
}

#[tactic(auto, unfolding(crate::specs::Names::is_uid))]
fn is_uid(x: Slot) -> bool
    ensures { result ≡ is_uid x }
{
    matches!(x, Slot::Bytes { len: 8, .. })
}

// The test, or left out.
#[tactic(auto, unfolding(crate::specs::Columns::free, crate::specs::Names::or_left_out))]
fn or_left_out<F: Fn(Slot) -> bool>(x: Slot, test: F) -> bool
    requires { F.pre test x }
    ensures absent { free x ≡ true → result ≡ true }
    ensures given { free x ≡ false → F.post test x result }
{
    left_out(x) || test(x)
}

// The number that a UID makes.
#[tactic(auto, unfolding(crate::specs::Names::uid_of))]
fn uid_of(s: &[u8], x: Slot) -> u64
    ensures { result ≡ uid_of s.now x }
{
    match x {
        Slot::Bytes { at, len } => token::number_at(s, at, len),
        _ => 0,
    }
}

// x is the integer n.
#[tactic(auto, unfolding(crate::specs::Names::is_int, crate::specs::Names::int_of))]
fn is_the(x: Slot, n: u64) -> bool
    ensures { result ≡ (is_int x && eqb (int_of x) n) }
{
    matches!(x, Slot::Int(v) if v == n)
}

// The cell block with these columns, where they are the whole of it.
#[tactic(auto, unfolding(crate::specs::Params::block_of, crate::specs::Columns::free, crate::specs::Names::or_left_out))]
fn block_of(start: Slot, end: Slot, whole: bool) -> Option<Block>
    ensures { result ≡ block_of start end whole }
{
    let fits = or_left_out(start, is_int) && or_left_out(end, is_int) && whole;
    fits.then_some(Block { start, end })
}

// The cell block whose names stand from at on.
fn cell_block(s: &[u8], at: usize) -> Option<Block>
    ensures { result ≡ given None (λ vs. block_in (list at vs)) (values_at s.now 14 at) }
{
    let a = take(s, at, 14, 3);
    let b = take(s, a.next, 14, 4);
    block_of(a.slot, b.slot, last(s, b.next, 14))
}

// The parameters of Get, from at on.
#[tactic(auto, using(crate::proofs::Lists::get_other, crate::proofs::Lists::get_more))]
pub fn get(s: &[u8], at: usize) -> Option<Block>
    ensures { result ≡ given None get_of (values_at s.now 15 at) }
{
    let a = first(s, at, 15);
    if !last(s, a.next, 15) {
        return None;
    }
    let Slot::List(p) = a.slot else {
        return None;
    };
    cell_block(s, p)
}

// No column is given.
fn empty() -> Columns
    ensures { result ≡ empty }
{
    Columns {
        rows: [Slot::Absent; COLUMNS],
    }
}

// With x as column c.
#[tactic(auto, unfolding(crate::specs::Columns::put_column))]
fn put(mut t: Columns, c: u64, x: Slot) -> Result<Columns, Offence>
    ensures { result ≡ put_column t c x }
{
    let i = c as usize;
    let Some(old) = t.rows.get(i) else {
        return Err(Offence::Unknown);
    };
    if !left_out(*old) {
        return Err(Offence::Repeated);
    }
    t.rows[i] = x;
    Ok(t)
}

// The columns whose names stand from at on.
fn all_columns(s: &[u8], at: usize) -> Result<Columns, Offence>
    ensures { result ≡ given no_columns (put_items (Ok empty)) (values_at s.now 13 at) }
{
    let mut t = Ok(empty());
    let mut i = at;
    loop {
        match item::step(s, i, 13) {
            Item::Shut(_) => return t,
            Item::Named { name, slot, next } => {
                t = t.and_then(|t| put(t, name, slot));
                i = next;
            }
            Item::Plain { next, .. } => {
                t = t.and(Err(Offence::Broken));
                i = next;
            }
            Item::Broken => return Err(Offence::Broken),
        }
    }
}

// The parameters of Set.
#[tactic(auto, using(crate::proofs::Lists::set_nothing, crate::proofs::Lists::set_list, crate::proofs::Lists::set_other, crate::proofs::Lists::set_beside))]
pub fn set(s: &[u8], at: usize) -> Result<Columns, Offence>
    ensures { result ≡ given no_columns set_of (values_at s.now 15 at) }
{
    let a = take(s, at, 15, 1);
    if !last(s, a.next, 15) {
        return Err(Offence::Broken);
    }
    match a.slot {
        Slot::Absent => Ok(empty()),
        Slot::List(p) => all_columns(s, p),
        _ => Err(Offence::Broken),
    }
}

// A StartSession with these parameters, where they are the whole of it.
#[tactic(auto, unfolding(crate::specs::Params::start_from, crate::specs::Names::is_int, crate::specs::Names::int_of, crate::specs::Columns::free, crate::specs::Names::or_left_out))]
fn start_from(
    s: &[u8],
    hsn: Slot,
    sp: Slot,
    write: Slot,
    challenge: Slot,
    authority: Slot,
    whole: bool,
) -> Option<Start>
    ensures { result ≡ start_from s.now hsn sp write challenge authority whole }
{
    let Slot::Int(h) = hsn else {
        return None;
    };
    let Slot::Int(write) = write else {
        return None;
    };
    let h = u32::try_from(h).ok()?;
    let options = or_left_out(challenge, is_bytes) && or_left_out(authority, is_uid);
    if !(is_uid(sp) && options && whole) {
        return None;
    }
    Some(Start {
        hsn: Hsn(h),
        sp: uid_of(s, sp),
        write,
        challenge,
        authority,
    })
}

// The parameters of StartSession.
#[tactic(auto, using(crate::proofs::Shapes::start_is))]
pub fn start_session(s: &[u8], at: usize) -> Option<Start>
    ensures { result ≡ given None (start_of s.now) (values_at s.now 15 at) }
{
    let a = first(s, at, 15);
    let b = first(s, a.next, 15);
    let c = first(s, b.next, 15);
    let d = take(s, c.next, 15, 0);
    let e = take(s, d.next, 15, 3);
    let whole = last(s, e.next, 15);
    start_from(s, a.slot, b.slot, c.slot, d.slot, e.slot, whole)
}

// An Authenticate with these parameters, where they are the whole of it.
#[tactic(auto, unfolding(crate::specs::Params::proof_from, crate::specs::Columns::free, crate::specs::Names::or_left_out))]
fn proof_from(s: &[u8], authority: Slot, proof: Slot, whole: bool) -> Option<Proof>
    ensures { result ≡ proof_from s.now authority proof whole }
{
    if !(is_uid(authority) && or_left_out(proof, is_bytes) && whole) {
        return None;
    }
    Some(Proof {
        authority: uid_of(s, authority),
        proof,
    })
}

// The parameters of Authenticate.
#[tactic(auto, using(crate::proofs::Shapes::proof_is))]
pub fn authenticate(s: &[u8], at: usize) -> Option<Proof>
    ensures { result ≡ given None (proof_of s.now) (values_at s.now 15 at) }
{
    let a = first(s, at, 15);
    let b = take(s, a.next, 15, 0);
    let whole = last(s, b.next, 15);
    proof_from(s, a.slot, b.slot, whole)
}

// There are no parameters, as Activate, Revert and RevertSP want it.
pub fn none(s: &[u8], at: usize) -> bool
    ensures { result ≡ given false nothing (values_at s.now 15 at) }
{
    last(s, at, 15)
}

// The set of reset types whose elements stand from at on.
#[tactic(auto, using(crate::proofs::Shapes::resets_one, crate::proofs::Shapes::resets_many))]
pub fn reset_set(s: &[u8], at: usize) -> Option<Resets>
    ensures { result ≡ resets_at s.now at }
{
    let a = first(s, at, 0);
    if last(s, a.next, 0) {
        return is_the(a.slot, 0).then_some(Resets::Power);
    }
    let b = first(s, a.next, 0);
    if !last(s, b.next, 0) {
        return None;
    }
    let program = is_the(a.slot, 0) && is_the(b.slot, 3) || is_the(a.slot, 3) && is_the(b.slot, 0);
    program.then_some(Resets::Program)
}

// Exactly which values are the parameters of each method, and what is read from them.
pub fn law_parameters()
    ensures { ParametersAsSaid }
{}
