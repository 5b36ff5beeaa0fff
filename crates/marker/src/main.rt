// The marker: reads a sheet from standard input and prints the arena that it describes, or the refusal line.
#![tactic(auto)]

ghost use Rattle.std.specs.Prelude.{◌≤◌, length, IfOk};

use arena::{Named, arc_total};
use sheet::{ReadFault, SheetFault, read_sheet};
use std::io;
use std::io::{Read, Write};
use table::Table;
use text::refusal_line;

// How much of standard input is read.
const LIMIT: usize = 4096;

fn main(rt: HostRuntime) -> anyhow::Result<()> {
    let mut input = [0u8; LIMIT];
    let count = read_input(&rt, &mut input)?;
    let mut table = Table::new(rt.alloc());
    match read_sheet(&mut table, rt.alloc(), &input[..count]) {
        Ok(()) => describe(&rt, &table)?,
        Err(ReadFault::Refused(fault)) => refuse(&rt, &fault)?,
        Err(fault @ ReadFault::Memory) => return Err(fault.into()),
    }
    Ok(())
}

// Fills the buffer from standard input, and replies how far. Nothing is taken from the heap (`read_to_end` would), so that a sheet that is
// refused before its chains are read asks for no memory.
fn read_input(rt: &HostRuntime, buffer: &mut [u8]) -> io::Result<usize>
    ensures { IfOk result (λ n. n ≤ length buffer.new) }
{
    let mut input = rt.stdin();
    let mut filled = 0;
    for _ in 0..LIMIT {
        let count = input.read(&mut buffer[filled..])?;
        if count == 0 {
            break;
        }
        filled += count;
    }
    Ok(filled)
}

// The line is written into a lent buffer, as the rules have it, so its length stands beside.
fn refuse(rt: &HostRuntime, fault: &SheetFault) -> io::Result<()> {
    let mut line = [0u8; 64];
    let count = refusal_line(fault, &mut line).unwrap();
    rt.stdout().write_all(&line[..count])
}

// A line with the number of positions and arcs, then one for each position: its name, who moves, and how many arcs it has.
fn describe<A: Named>(rt: &HostRuntime, arena: &A) -> io::Result<()> {
    let size = arena.size();
    let arcs = arc_total(arena);
    println!(rt; "positions {size} arcs {arcs}")?;
    for v in 0..size {
        position_line(rt, arena, v)?;
    }
    Ok(())
}

fn position_line<A: Named>(rt: &HostRuntime, arena: &A, v: usize) -> io::Result<()> {
    let (Some(name), Some(mover), Some(count)) = (arena.name(v), arena.mover(v), arena.arc_count(v))
    else {
        return Ok(());
    };
    // a name is four bytes and need not be text: it is written as it is
    rt.stdout().write_all(&name.bytes)?;
    println!(rt; " {mover} {count}")
}
