// The parts of a record as they come from the factory, and as they stand where nothing is kept.
#![tactic(auto)]

ghost use Rattle.std.specs.Prelude.{◌≡◌, replicate};
ghost use Rattle.model.specs.Record.{no_session, no_tables, no_undo, no_secrets, no_tries, factory_tables, factory_enabled, restored_locking, factory_secrets, factory_card};
ghost use Rattle.ranges.specs.Row.{row_count, no_row};

use model::{Card, Cells, PIN_BYTES, PINS, PinRow, Secret, Session, Tables, Undo, Vault};
use packet::{Hsn, Tsn};
use ranges::{Mbr, ROWS, Row};

// Every range row with numbers and flags 0, {0}.
fn no_rows() -> [Row; ROWS]
    ensures { result ≡ replicate row_count no_row }
{
    [Row {
        start: 0,
        length: 0,
        read_enabled: false,
        write_enabled: false,
        read_locked: false,
        write_locked: false,
        lock_on_program: false,
    }; ROWS]
}

// The Locking SP as it comes; of the Admin SP, whether TPER_RESET is enabled stays.
pub fn restored_locking(t: Tables) -> Tables
    ensures { result ≡ restored_locking t }
{
    let mut enabled = [false; PINS];
    enabled[0] = true;
    enabled[1] = true;
    Tables {
        enabled,
        resettable: t.resettable,
        ..no_tables()
    }
}

// No rollback copy.
pub fn no_tables() -> Tables
    ensures { result ≡ no_tables }
{
    Tables {
        active: false,
        rows: no_rows(),
        mbr: Mbr {
            enable: false,
            done: false,
            done_on_program: false,
        },
        enabled: [false; PINS],
        resettable: false,
    }
}

// Both SPs as they come.
pub fn factory_tables() -> Tables
    ensures { result ≡ factory_tables }
{
    restored_locking(no_tables())
}

pub fn no_undo() -> Undo
    ensures { result ≡ no_undo }
{
    Undo {
        live: false,
        was: no_tables(),
    }
}

pub fn no_session() -> Session
    ensures { result ≡ no_session }
{
    Session {
        live: false,
        locking: false,
        tsn: Tsn(0),
        hsn: Hsn(0),
        proved: [false; PINS],
    }
}

pub fn no_tries() -> [PinRow; PINS]
    ensures { result ≡ no_tries }
{
    [PinRow { tries: 0 }; PINS]
}

pub fn no_secrets() -> [Secret; PINS]
    ensures { result ≡ no_secrets }
{
    [Secret {
        bytes: [0; PIN_BYTES],
        len: 0,
    }; PINS]
}

// "SID's PIN the MSID, other PINs empty"
pub fn factory_secrets(msid: [u8; PIN_BYTES]) -> [Secret; PINS]
    ensures { result ≡ factory_secrets msid }
{
    let mut l = no_secrets();
    l[0] = Secret {
        bytes: msid,
        len: 32,
    };
    l
}

// The record as it comes, for a disk of n sectors.
pub fn factory_card(n: u64, msid: [u8; PIN_BYTES]) -> Card
    ensures { result ≡ factory_card n msid }
{
    Card {
        cells: Cells {
            n,
            msid,
            tables: factory_tables(),
            pins: no_tries(),
            session: no_session(),
            next: Tsn(1),
            undo: no_undo(),
        },
        vault: Vault {
            live: factory_secrets(msid),
            kept: no_secrets(),
        },
    }
}
