// Requests as a host writes them: the payload from byte 56 on, and the envelope around it.
use packet::{Hsn, Tsn};

pub(crate) const ADMIN_SP: u64 = 0x0000020500000001;

pub(crate) const LOCKING_SP: u64 = 0x0000020500000002;

pub(crate) const SID: u64 = 0x0000000900000006;

pub(crate) const ADMIN1: u64 = 0x0000000900010001;

pub(crate) const PIN_SID: u64 = 0x0000000b00000001;

pub(crate) const PIN_MSID: u64 = 0x0000000b00008402;

pub(crate) const TPER_INFO: u64 = 0x0000020100030001;

pub(crate) const MBR_CONTROL: u64 = 0x0000080300000001;

pub(crate) const RANGE1: u64 = 0x0000080200030001;

pub(crate) const RANGE2: u64 = 0x0000080200030002;

pub(crate) const ACTIVATE: u64 = 0x0000000600000203;

const MANAGER: u64 = 0x00000000000000ff;

const START_SESSION: u64 = 0x000000000000ff02;

const THIS_SP: u64 = 0x0000000000000001;

const GET: u64 = 0x0000000600000016;

const SET: u64 = 0x0000000600000017;

const AUTHENTICATE: u64 = 0x000000060000001c;

// Where the payload begins.
const HEADER: usize = 56;

// A field of n bytes, whatever stands there: where it ends, or where it was to begin if the writer refused. The others are alike.
pub(crate) fn field(out: &mut [u8], at: usize, n: usize, v: u64) -> usize {
    token::put_number(out, at, n, v).unwrap_or(at)
}

fn int(out: &mut [u8], at: usize, v: u64) -> usize {
    token::put_int(out, at, v).unwrap_or(at)
}

fn bytes(out: &mut [u8], at: usize, s: &[u8]) -> usize {
    token::put_bytes(out, at, s).unwrap_or(at)
}

fn control(out: &mut [u8], at: usize, code: u8) -> usize {
    token::put_control(out, at, code).unwrap_or(at)
}

fn uid(out: &mut [u8], at: usize, v: u64) -> usize {
    let p = field(out, at, 1, 0xa8);
    field(out, p, 8, v)
}

// How long the payload is that ends at at.
fn length(at: usize) -> usize {
    at.saturating_sub(HEADER)
}

// A call up to its parameters.
fn head(out: &mut [u8], object: u64, method: u64) -> usize {
    let p = control(out, HEADER, 0xf8);
    let q = uid(out, p, object);
    let r = uid(out, q, method);
    control(out, r, 0xf0)
}

// A call from the end of its parameters on.
fn foot(out: &mut [u8], at: usize) -> usize {
    let p = control(out, at, 0xf1);
    let q = control(out, p, 0xf9);
    let r = control(out, q, 0xf0);
    let s = field(out, r, 3, 0);
    let t = control(out, s, 0xf1);
    length(t)
}

// A named value: what value writes there.
fn named<F: FnOnce(&mut [u8], usize) -> usize>(
    out: &mut [u8],
    at: usize,
    name: u64,
    value: F,
) -> usize
    requires { F.IsAlwaysCallable value }
{
    let p = control(out, at, 0xf2);
    let q = int(out, p, name);
    let r = value(&mut *out, q);
    control(out, r, 0xf3)
}

// The named integer.
fn cell(out: &mut [u8], at: usize, name: u64, v: u64) -> usize {
    named(out, at, name, |o, p| int(o, p, v))
}

// A call with no parameters.
pub(crate) fn bare(out: &mut [u8], object: u64, method: u64) -> usize {
    let p = head(out, object, method);
    foot(out, p)
}

// The parameters of a StartSession that must be there.
fn wanted(out: &mut [u8], hsn: u64, sp: u64) -> usize {
    let p = head(out, MANAGER, START_SESSION);
    let q = int(out, p, hsn);
    let r = uid(out, q, sp);
    int(out, r, 1)
}

// A StartSession with no options.
pub(crate) fn start(out: &mut [u8], hsn: u64, sp: u64) -> usize {
    let p = wanted(out, hsn, sp);
    foot(out, p)
}

// A StartSession as an authority, with its PIN.
pub(crate) fn start_as(out: &mut [u8], hsn: u64, sp: u64, who: u64, pin: &[u8]) -> usize {
    let p = wanted(out, hsn, sp);
    let q = named(out, p, 0, |o, at| bytes(o, at, pin));
    let r = named(out, q, 3, |o, at| uid(o, at, who));
    foot(out, r)
}

pub(crate) fn authenticate(out: &mut [u8], who: u64, pin: &[u8]) -> usize {
    let p = head(out, THIS_SP, AUTHENTICATE);
    let q = uid(out, p, who);
    let r = named(out, q, 0, |o, at| bytes(o, at, pin));
    foot(out, r)
}

// A Get of the columns first to last.
pub(crate) fn get(out: &mut [u8], object: u64, first: u64, last: u64) -> usize {
    let p = head(out, object, GET);
    let q = control(out, p, 0xf0);
    let r = cell(out, q, 3, first);
    let s = cell(out, r, 4, last);
    let t = control(out, s, 0xf1);
    foot(out, t)
}

// A Set of these columns, each by its number, in this order.
pub(crate) fn set(out: &mut [u8], object: u64, columns: &[(u64, u64)]) -> usize {
    let p = head(out, object, SET);
    let q = named(out, p, 1, |o, at| {
        let mut end = control(o, at, 0xf0);
        for (column, v) in columns {
            end = cell(o, end, *column, *v);
        }
        control(o, end, 0xf1)
    });
    foot(out, q)
}

// A control token alone, as FA.
pub(crate) fn one(out: &mut [u8], code: u8) -> usize {
    length(control(out, HEADER, code))
}

// A control token and its number, as FB 00.
pub(crate) fn pair(out: &mut [u8], code: u8, v: u64) -> usize {
    let p = control(out, HEADER, code);
    length(int(out, p, v))
}

// The envelope around a payload of n bytes; the whole length.
pub(crate) fn sealed(out: &mut [u8], tsn: Tsn, hsn: Hsn, n: usize) -> usize {
    packet::seal(out, tsn, hsn, n).unwrap_or(0)
}
