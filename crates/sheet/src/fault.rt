// Why a sheet is not read.
ghost use Rattle.std.specs.Prelude.{◌≡◌};
ghost use Rattle.sheet.specs.Refusals.{number_of, place_of};
ghost use Rattle.sheet.specs.declared.fault.ReadFault.TheVariants.{Refused as Refused-sheet, Memory};

use std::alloc::{AllocError, AllocFailed};
use text::Fault;
use thiserror::Error;

// Why a sheet is refused. Each fault has a number, and a place: 0, a position or an arc record.
#[derive(Clone, Copy, PartialEq, Eq, Debug)]
pub enum SheetFault {
    // under four bytes
    Short,
    // byte 0 is not 1 or byte 3 is not 0
    Version,
    // more than 16 positions or more than 48 arc records
    Large,
    // not as long as its positions and records take
    Length,
    // a position record with a bad mover, first record or name byte
    Position(usize),
    // an arc record with a bad priority, target or next record
    Record(usize),
    // an arc record that the chains reach a second time
    Repeated(usize),
    // an arc record in no chain
    Unused(usize),
}

impl Fault for SheetFault {
    ghost number_of = { number_of };

    ghost place_of = { place_of };

    fn number(&self) -> usize {
        match *self {
            SheetFault::Short => 1,
            SheetFault::Version => 2,
            SheetFault::Large => 3,
            SheetFault::Length => 4,
            SheetFault::Position(_) => 5,
            SheetFault::Record(_) => 6,
            SheetFault::Repeated(_) => 7,
            SheetFault::Unused(_) => 8,
        }
    }

    fn place(&self) -> usize {
        match *self {
            SheetFault::Short | SheetFault::Version | SheetFault::Large | SheetFault::Length => 0,
            SheetFault::Position(v) => v,
            SheetFault::Record(k) | SheetFault::Repeated(k) | SheetFault::Unused(k) => k,
        }
    }
}

// A sheet is not read because it is refused, or for want of memory.
#[derive(Clone, Copy, PartialEq, Eq, Debug, Error)]
pub enum ReadFault {
    #[error("the sheet is refused")]
    Refused(SheetFault),
    #[error("no memory for the sheet")]
    Memory,
}

// by hand: a derived From has no contract
impl From<SheetFault> for ReadFault {
    ghost from_gives = { λ e r. r ≡ Refused-sheet e };

    fn from(e: SheetFault) -> ReadFault {
        ReadFault::Refused(e)
    }
}

// by hand: two errors of the library give the one variant, which holds neither
impl From<AllocError> for ReadFault {
    ghost from_gives = { λ e r. r ≡ Memory };

    fn from(_: AllocError) -> ReadFault {
        ReadFault::Memory
    }
}

impl<T: Drop> From<AllocFailed<T>> for ReadFault {
    ghost from_gives = { λ e r. r ≡ Memory };

    fn from(_: AllocFailed<T>) -> ReadFault {
        ReadFault::Memory
    }
}
