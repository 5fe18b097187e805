// The card's record and the words of its decisions. Document 01's rules and the laws over them are in specs/, in the order of docs/BELIEVE.md.
#![tactic(auto)]

ghost use Rattle.std.specs.Prelude.{◌≡◌};
ghost use Rattle.model.specs.Apply.{missed_row, proved_session};
ghost use Rattle.model.specs.Laws.{SoundDecided, AlwaysSound, RangesApart, TurnedAway, Secrecy, RefusedKeeps, AbandonPutsBack, CommitKeeps, NothingShows};
ghost use Rattle.model.specs.Numbers.{NumbersInOrder, NeverUnsound};
ghost use Rattle.model.specs.Literals.{AsInFigures};
ghost use Rattle.model.specs.Words.{AccessAsSaid};
ghost use Rattle.model.specs.Statuses.{StatusesAsSaid};
ghost use Rattle.model.specs.Effects.{EffectsAsSaid};
ghost use Rattle.model.specs.Tries.{TriesCounted};
ghost use Rattle.model.specs.Proved.{ProvedAsTold};
ghost use Rattle.model.specs.Pins.{PinsAsTold};
ghost use Rattle.model.specs.Resets.{ResetsAsSaid};
ghost use Rattle.model.specs.Single.{OneOutcome};
ghost use Rattle.model.specs.Short.{AnswersShort};

use packet::{Hsn, Tsn};
use ranges::{Edit, Mbr, ROWS, Row};

// Admin1 to Admin4, User1 to User8
pub const ADMINS: u8 = 4;

pub const USERS: u8 = 8;

// The rows of C_PIN, and the authorities that have one: SID is 0, Admin1 to Admin4 are 1 to 4, User1 to User8 are 5 to 12.
// `pin_count` of specs/Record.antt is the same number.
pub const PINS: usize = 13;

// The MSID's length, and a stored PIN's at the most.
pub const PIN_BYTES: usize = 32;

// Every TryLimit.
pub const TRY_LIMIT: u8 = 5;

// What a transaction puts back, PINs aside.
#[derive(Clone, Copy)]
pub struct Tables {
    // the Locking SP's LifeCycle: 9 if set, 8 if not
    pub active: bool,
    pub rows: [Row; ROWS],
    pub mbr: Mbr,
    // column 5 of Authority; SID's is always set
    pub enabled: [bool; PINS],
    // column 8 of TPerInfo
    pub resettable: bool,
}

// The public part of a PIN row.
#[derive(Clone, Copy)]
pub struct PinRow {
    pub tries: u8,
}

#[derive(Clone, Copy)]
pub struct Session {
    // stays a flag: a record that is not sound may have a closed session with cells left over, and images and figures hold such
    pub live: bool,
    // to the Locking SP, or else to the Admin SP
    pub locking: bool,
    pub tsn: Tsn,
    pub hsn: Hsn,
    pub proved: [bool; PINS],
}

// An open transaction, and the tables from before it.
#[derive(Clone, Copy)]
pub struct Undo {
    // stays a flag, for the same reason
    pub live: bool,
    pub was: Tables,
}

// Every cell that is no PIN. The MSID is printed on the card.
#[derive(Clone, Copy)]
pub struct Cells {
    pub n: u64,
    pub msid: [u8; PIN_BYTES],
    pub tables: Tables,
    pub pins: [PinRow; PINS],
    pub session: Session,
    // the next session's TSN
    pub next: Tsn,
    pub undo: Undo,
}

// A PIN: its first len bytes, and zeros after them. The length stays beside the bytes: there is no heap, and the image has both.
#[derive(Clone, Copy)]
pub struct Secret {
    pub bytes: [u8; PIN_BYTES],
    pub len: u8,
}

// The PINs, and their copies from before an open transaction.
#[derive(Clone, Copy)]
pub struct Vault {
    pub live: [Secret; PINS],
    pub kept: [Secret; PINS],
}

#[derive(Clone, Copy)]
pub struct Card {
    pub cells: Cells,
    pub vault: Vault,
}

// What a UID names in a session's SP.
#[derive(Clone, Copy)]
pub enum Object {
    PinSid,
    PinMsid,
    TperInfo,
    SpAdmin,
    SpLocking,
    ThisSp,
    // an authority and its PIN, by their row
    Authority(u8),
    Pin(u8),
    // 0 is the global range
    Range(u8),
    MbrControl,
    Nothing,
}

// Who a UID names in an SP.
#[derive(Clone, Copy)]
pub enum Who {
    Unknown,
    Anybody,
    Class,
    Row(usize),
}

// One access row, all numbers, as document 01 wants its form: the object's kind, the method, the class of authorities, and the columns as a set of bits.
#[derive(Clone, Copy)]
pub struct Access {
    pub kind: u8,
    pub method: u32,
    pub who: u8,
    pub columns: u32,
}

#[derive(Clone, Copy)]
pub enum Status {
    Success,
    NotAuthorized,
    NoSessions,
    InvalidParameter,
    LockedOut,
    Fail,
}

// What a Set asks of MBRControl: each column left out or its new value.
#[derive(Clone, Copy)]
pub struct MbrEdit {
    pub enable: Option<bool>,
    pub done: Option<bool>,
    pub done_on_program: Option<bool>,
}

// Every change that a method makes to the tables or the PINs. Bytes are named by their place in the request.
#[derive(Clone, Copy)]
pub enum Change {
    Nothing,
    PutPin { row: usize, at: usize, len: usize },
    PutEnabled { row: usize, on: bool },
    PutRange { row: usize, edit: Edit },
    PutMbr(MbrEdit),
    PutResettable(bool),
    Activate,
    RevertLocking,
    RevertAdmin,
    RevertSp,
}

#[derive(Clone, Copy)]
pub enum Decision {
    // a method refused
    Refuse(Status),
    // a StartSession refused, and one whose PIN for this row differs
    NotStarted(Status),
    Missed(usize),
    // a session to an SP for a host, with this row proved or nobody
    Started { locking: bool, hsn: Hsn, who: Who },
    // an Authenticate answered 0, one whose PIN for this row differs, and one answered 1
    Denied,
    Mistaken(usize),
    Proved(Who),
    // a Get of these columns of an object
    Told { object: Object, first: u8, last: u8 },
    Done(Change),
    // the control payloads
    Began,
    BeganAlready,
    Committed,
    Abandoned,
    NoneOpen,
    Ended,
    // a broken payload in the session
    Broke,
}

// What a request is judged to be: decided, or a PIN row to be compared with bytes of the request, and what follows where they are equal and where they differ.
#[derive(Clone, Copy)]
pub enum Judged {
    Settled(Decision),
    Compare {
        row: usize,
        at: usize,
        len: usize,
        equal: Decision,
        differs: Decision,
    },
}

// What comes back of a request or a reset: the number, the count of answer bytes, and the record after it.
// The number stays one, and a refusal has a record: law_literals and law_one_outcome speak of both.
#[derive(Clone, Copy)]
pub struct Outcome {
    pub number: u8,
    pub count: usize,
    pub card: Card,
}

impl PinRow {
    // "Tries 0"
    pub fn cleared(mut self) -> Self
        ensures { result ≡ record { tries = 0 } }
    {
        self.tries = 0;
        self
    }

    // "PIN differs, Tries + 1"
    pub fn missed(mut self) -> Self
        ensures { result ≡ missed_row self }
    {
        if self.tries < TRY_LIMIT {
            self.tries += 1;
        }
        self
    }
}

impl Session {
    // "and the authority is proved"
    pub fn proving(mut self, who: Who) -> Self
        ensures { result ≡ proved_session self who }
    {
        if let Who::Row(r) = who {
            if r < PINS {
                self.proved[r] = true;
            }
        }
        self
    }
}

// After any run from any factory record the record is sound.
pub fn law_sound()
    ensures { AlwaysSound }
{}

// A record is sound exactly if each clause of document 01 holds.
pub fn law_sound_clauses()
    ensures { SoundDecided }
{}

// From a factory record number 1 never comes.
pub fn law_never_unsound()
    ensures { NeverUnsound }
{}

// What is turned away by number leaves the record and the answer untouched.
pub fn law_refused_by_number()
    ensures { TurnedAway }
{}

// The number that comes back is the lowest that applies.
pub fn law_numbers()
    ensures { NumbersInOrder }
{}

// The UIDs, columns, statuses and the factory's cells, in figures.
pub fn law_literals()
    ensures { AsInFigures }
{}

// The access table says what document 01 says in words.
pub fn law_access()
    ensures { AccessAsSaid }
{}

// What each call does to the record, cell by cell, and what a Get tells; refused, it does nothing but count a wrong PIN.
pub fn law_effect()
    ensures { EffectsAsSaid }
{}

// A method refused changes no cell but a try counter.
pub fn law_refused()
    ensures { RefusedKeeps }
{}

// Each answer, byte by byte, with the status of the first fault that applies.
pub fn law_statuses()
    ensures { StatusesAsSaid }
{}

// An authority is proved exactly if its right PIN was given since the session was opened, counted from the events.
pub fn law_proved()
    ensures { ProvedAsTold }
{}

// Tries is the number of wrong PINs since it was last set to 0, counted from the events, and never above 5.
pub fn law_tries()
    ensures { TriesCounted }
{}

// A PIN changes only by a Set of it, an Activate, a restore of its SP or an abandon, and to what these say.
pub fn law_pins()
    ensures { PinsAsTold }
{}

// However a transaction ends without a commit, every cell but Tries is what it was.
pub fn law_abandon()
    ensures { AbandonPutsBack }
{}

// A commit keeps all.
pub fn law_commit()
    ensures { CommitKeeps }
{}

// Before the commit nothing shows on the media; outside a transaction the verdict is the record's own, and asking changes nothing.
pub fn law_not_shown()
    ensures { NothingShows }
{}

// What a power cycle and a TPER_RESET leave, cell by cell, and which TSN a session has.
pub fn law_resets()
    ensures { ResetsAsSaid }
{}

// N stays, no two ranges share a sector, each ends within N and owns its length, and the shares add up to N, in every record that a run reaches.
pub fn law_apart()
    ensures { RangesApart }
{}

// Demand 3: the PINs stay in.
pub fn law_secrecy()
    ensures { Secrecy }
{}

// What a request brings back and leaves in the buffer is one outcome.
pub fn law_one_outcome()
    ensures { OneOutcome }
{}

// An answer never exceeds 2,048 bytes nor the buffer.
pub fn law_short()
    ensures { AnswersShort }
{}
