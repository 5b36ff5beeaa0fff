// The parts of a sheet, and the tests of its header, positions and records. Where each byte stands is said here alone.
ghost use Rattle.std.specs.Prelude.{◌≡◌, ◌<◌, ◌≤◌, ◌↔◌, IsTrue, MatchResult};
ghost use Rattle.sheet.specs.Layout.{positions, records, mover_byte, first_record, name_bytes, priority_byte, target_byte, next_record, Headed, Placed, Recorded, PositionFits, RecordFits};
ghost use Rattle.sheet.specs.Chains.{arc_of, mover_of};
ghost use Rattle.sheet.specs.Reading.{number, FromOne};
ghost use Rattle.sheet.specs.Refusals.{Refuses};

use super::fault::SheetFault;
use arena::Name;
use game::{Arc, Player};
use std::array;

// The bytes of a position: the mover, the first record of its chain, and the name.
#[derive(Clone, Copy)]
struct PositionRecord {
    mover: u8,
    first: u8,
    name: [u8; 4],
}

// The bytes of an arc record: a priority, a target, and the next record of its chain.
#[derive(Clone, Copy)]
struct ArcRecord {
    priority: u8,
    target: u8,
    next: u8,
}

// Whether a byte may stand in a name: a visible character, hex 21 to 7E.
fn is_visible(byte: u8) -> bool
    ensures { IsTrue result ↔ ((0x21 ≤ byte) × (byte ≤ 0x7E)) }
{
    byte.is_ascii_graphic()
}

// The record that a byte names: 0 names none.
fn record_of(byte: u8) -> Option<usize>
    ensures number { number result ≡ byte }
    ensures from_one { FromOne result }
{
    (byte != 0).then_some(usize::from(byte))
}

// A sheet whose header is as it should be.
#[derive(Clone, Copy)]
pub(crate) struct HeadedSheet<'a> {
    bytes: &'a [u8],
    ghost headed: { Headed bytes.now },
}

impl<'a> HeadedSheet<'a> {
    pub(crate) fn read(bytes: &'a [u8]) -> Result<HeadedSheet<'a>, SheetFault>
        ensures { MatchResult result (λ sheet. sheet.bytes.now ≡ bytes.now) (Refuses bytes.now) }
    {
        let [version, positions, records, reserved, ..] = bytes else {
            return Err(SheetFault::Short);
        };
        if *version != 1 || *reserved != 0 {
            return Err(SheetFault::Version);
        }
        let positions = usize::from(*positions);
        let records = usize::from(*records);
        if positions > 16 || records > 48 {
            return Err(SheetFault::Large);
        }
        if bytes.len() != 4 + 6 * positions + 3 * records {
            return Err(SheetFault::Length);
        }
        Ok(HeadedSheet { bytes })
    }

    fn positions(&self) -> usize
        ensures { result ≡ positions self.now.bytes.now }
    {
        usize::from(self.bytes[1])
    }

    fn records(&self) -> usize
        ensures { result ≡ records self.now.bytes.now }
    {
        usize::from(self.bytes[2])
    }

    // Position v, from 0.
    fn position_record(&self, v: usize) -> PositionRecord
        requires { v < positions self.now.bytes.now }
        ensures mover { result.mover ≡ mover_byte self.now.bytes.now v }
        ensures first { result.first ≡ first_record self.now.bytes.now v }
        ensures name { result.name ≡ name_bytes self.now.bytes.now v }
    {
        let at = 4 + 6 * v;
        PositionRecord {
            mover: self.bytes[at],
            first: self.bytes[at + 1],
            name: array::from_fn(|i| self.bytes[at + 2 + i]),
        }
    }

    // Arc record k, from 1.
    fn arc_record(&self, k: usize) -> ArcRecord
        requires { (1 ≤ k) × (k ≤ records self.now.bytes.now) }
        ensures priority { result.priority ≡ priority_byte self.now.bytes.now k }
        ensures target { result.target ≡ target_byte self.now.bytes.now k }
        ensures next { result.next ≡ next_record self.now.bytes.now k }
    {
        let at = 4 + 6 * self.positions() + 3 * (k - 1);
        ArcRecord {
            priority: self.bytes[at],
            target: self.bytes[at + 1],
            next: self.bytes[at + 2],
        }
    }

    fn position_fits(&self, v: usize) -> bool
        requires { v < positions self.now.bytes.now }
        ensures { IsTrue result ↔ PositionFits self.now.bytes.now v }
    {
        let record = self.position_record(v);
        Player::try_from(record.mover).is_ok()
            && usize::from(record.first) <= self.records()
            && record.name.iter().all(|b| is_visible(*b))
    }

    fn record_fits(&self, k: usize) -> bool
        requires { (1 ≤ k) × (k ≤ records self.now.bytes.now) }
        ensures { IsTrue result ↔ RecordFits self.now.bytes.now k }
    {
        let record = self.arc_record(k);
        record.priority <= 7
            && usize::from(record.target) < self.positions()
            && usize::from(record.next) <= self.records()
    }
}

// A sheet whose header and positions are as they should be. (This reading and the next differ in what they test and what they make: a
// common one would take both as arguments.)
#[derive(Clone, Copy)]
pub(crate) struct PlacedSheet<'a> {
    sheet: HeadedSheet<'a>,
    ghost placed: { Placed sheet.bytes.now },
}

impl<'a> PlacedSheet<'a> {
    pub(crate) fn read(sheet: HeadedSheet<'a>) -> Result<PlacedSheet<'a>, SheetFault>
        ensures { MatchResult result (λ placed. placed.sheet.bytes.now ≡ sheet.entry.bytes.now) (Refuses sheet.entry.bytes.now) }
    {
        match (0..sheet.positions()).find(|v| !sheet.position_fits(*v)) {
            Some(v) => Err(SheetFault::Position(v)),
            None => Ok(PlacedSheet { sheet }),
        }
    }
}

// What a sheet says of a position: who moves there, its name, and the first record of its chain.
#[derive(Clone, Copy)]
pub(crate) struct SheetPosition {
    pub(crate) mover: Player,
    pub(crate) name: Name,
    pub(crate) first_record: Option<usize>,
}

// What a sheet says of an arc record: its arc, and the record that comes after it in its chain.
#[derive(Clone, Copy)]
pub(crate) struct Link {
    pub(crate) arc: Arc,
    pub(crate) next: Option<usize>,
}

// A sheet whose header, positions and records are as they should be; the chains are another matter.
#[derive(Clone, Copy)]
pub(crate) struct RecordedSheet<'a> {
    sheet: HeadedSheet<'a>,
    ghost recorded: { Recorded sheet.bytes.now },
}

impl<'a> RecordedSheet<'a> {
    pub(crate) fn read(placed: PlacedSheet<'a>) -> Result<RecordedSheet<'a>, SheetFault>
        ensures { MatchResult result (λ recorded. recorded.sheet.bytes.now ≡ placed.entry.sheet.bytes.now) (Refuses placed.entry.sheet.bytes.now) }
    {
        let sheet = placed.sheet;
        match (1..sheet.records() + 1).find(|k| !sheet.record_fits(*k)) {
            Some(k) => Err(SheetFault::Record(k)),
            None => Ok(RecordedSheet { sheet }),
        }
    }

    pub(crate) fn positions(&self) -> usize
        ensures { result ≡ positions self.now.sheet.bytes.now }
    {
        self.sheet.positions()
    }

    pub(crate) fn records(&self) -> usize
        ensures { result ≡ records self.now.sheet.bytes.now }
    {
        self.sheet.records()
    }

    // Position v, from 0.
    pub(crate) fn position(&self, v: usize) -> SheetPosition
        requires { v < positions self.now.sheet.bytes.now }
        ensures mover { result.mover ≡ mover_of (mover_byte self.now.sheet.bytes.now v) }
        ensures name { result.name.bytes ≡ name_bytes self.now.sheet.bytes.now v }
        ensures first { number result.first_record ≡ first_record self.now.sheet.bytes.now v }
        ensures first_from_one { FromOne result.first_record }
    {
        let record = self.sheet.position_record(v);
        let bytes = record.name;
        SheetPosition {
            mover: Player::try_from(record.mover).unwrap(),
            name: Name { bytes },
            first_record: record_of(record.first),
        }
    }

    // Arc record k, from 1.
    pub(crate) fn link(&self, k: usize) -> Link
        requires { (1 ≤ k) × (k ≤ records self.now.sheet.bytes.now) }
        ensures arc { result.arc ≡ arc_of self.now.sheet.bytes.now k }
        ensures next { number result.next ≡ next_record self.now.sheet.bytes.now k }
        ensures next_from_one { FromOne result.next }
    {
        let record = self.sheet.arc_record(k);
        Link {
            arc: Arc {
                target: usize::from(record.target),
                priority: record.priority,
            },
            next: record_of(record.next),
        }
    }
}
