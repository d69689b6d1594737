// Any of the filling calls as a value, made on all the lists.
ghost use Rattle.std.specs.Prelude.{◌≡◌};
ghost use Rattle.book.specs.Answers.{received_meant};
ghost use Rattle.book.specs.Arguments.{call_meant};
ghost use Rattle.book.specs.Filling.{answer, after};
ghost use Rattle.book.specs.Written.{written_book, SameBook};

use crate::Filed;
use crate::lent::{AgreedMut, BookMut, ReadsMut, SlotsMut};
use base::Refusal;
use rules::Head;

#[derive(Clone, Copy)]
pub enum Call {
    Delivery {
        slot: u32,
        version: u32,
        value: u32,
        status: u32,
    },
    Holiday(u32),
    Register {
        boundary: u32,
        version: u32,
        reading: u32,
        width: u32,
    },
    Agreed {
        slot: u32,
        version: u32,
        value: u32,
    },
}

pub fn make(head: Head, book: &mut BookMut<'_>, call: Call) -> Result<Filed, Refusal>
    ensures told { let before = written_book book.old in
        (received_meant result ≡ answer head before (call_meant call))
        × (written_book book.new ≡ after head before (call_meant call)) }
    ensures same { SameBook book.old book.new }
{
    match call {
        Call::Delivery {
            slot,
            version,
            value,
            status,
        } => {
            let mut slots = SlotsMut {
                values: book.values,
                versions: book.versions,
                statuses: book.statuses,
            };
            crate::deliver(head, &mut slots, book.counts, slot, version, value, status)
        }
        Call::Holiday(day) => crate::holiday(head, book.holidays, day),
        Call::Register {
            boundary,
            version,
            reading,
            width,
        } => {
            let mut reads = ReadsMut {
                readings: book.readings,
                read_versions: book.read_versions,
                widths: book.widths,
            };
            crate::register(head, &mut reads, boundary, version, reading, width)
        }
        Call::Agreed {
            slot,
            version,
            value,
        } => {
            let mut agreed = AgreedMut {
                values: book.agreed,
                versions: book.agreed_versions,
            };
            crate::agree(head, &mut agreed, slot, version, value)
        }
    }
}
