// Reading a sheet into a table.
ghost use Rattle.std.specs.Prelude.{MatchResult};
ghost use Rattle.table.specs.Sites.{sites_of};
ghost use Rattle.table.specs.Tables.{sites};
ghost use Rattle.sheet.specs.Chains.{Describes};
ghost use Rattle.sheet.specs.Reading.{Unread};
ghost use Rattle.sheet.specs.Read.{Reads};

use super::chains::ChainReader;
use super::fault::{ReadFault, SheetFault};
use super::layout::{HeadedSheet, PlacedSheet, RecordedSheet};
use std::alloc::Global;
use table::{Position, Table};

// Fills the table with the arena that the sheet describes. A refusal, and a want of memory, leaves the old one in it.
pub fn read_sheet(table: &mut Table, heap: Global, sheet: &[u8]) -> Result<(), ReadFault>
    ensures { Reads sheet.now table.old result table.new }
{
    *table = table_of(heap, sheet)?;
    Ok(())
}

fn table_of(heap: Global, sheet: &[u8]) -> Result<Table, ReadFault>
    ensures { MatchResult result (λ t. Describes sheet.now (sites t)) (Unread sheet.now) }
{
    let positions = positions_of(heap, sheet)?;
    Ok(Table { positions })
}

fn positions_of(heap: Global, sheet: &[u8]) -> Result<Vec<Position>, ReadFault>
    ensures { MatchResult result (λ ps. Describes sheet.now (sites_of ps.items)) (Unread sheet.now) }
{
    let headed = HeadedSheet::read(sheet)?;
    let placed = PlacedSheet::read(headed)?;
    let recorded = RecordedSheet::read(placed)?;
    let mut reader = ChainReader::new(heap, recorded);
    let positions = reader.all_positions()?;
    match reader.lowest_unused() {
        Some(k) => Err(ReadFault::Refused(SheetFault::Unused(k))),
        None => Ok(positions),
    }
}
