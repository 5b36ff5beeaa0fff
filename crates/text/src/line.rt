// The refusal line: what a program says of what it refuses.
ghost use Rattle.std.specs.Prelude.{◌≤◌, length};
ghost use Rattle.text.specs.Line.{refusal_line};
ghost use Rattle.text.specs.Output.{Written, Writes};

use super::fault::{Fault, OutputFault};
use super::pieces::Text;

// Writes `refused 7 at 3` and a newline, by the fault's number and place, and replies their count. It wants 64 bytes: the line of any
// fault is shorter, whatever its place.
pub fn refusal_line<F: Fault>(fault: &F, output: &mut [u8]) -> Result<usize, OutputFault>
    ensures { Writes 64 (refusal_line (F.number_of fault.now) (F.place_of fault.now)) output.old result output.new }
{
    if output.len() < 64 {
        return Err(OutputFault::Short(64));
    }
    Ok(write_line(fault, output))
}

// no write!: into a lent slice it says nothing of the bytes written
#[tactic(auto, using(crate::proofs::Joined::decimal_short))]
fn write_line<F: Fault>(fault: &F, output: &mut [u8]) -> usize
    requires { 64 ≤ length output.old }
    ensures { Written (refusal_line (F.number_of fault.now) (F.place_of fault.now)) output.old result output.new }
{
    let mut text = Text::over(output);
    text.push(b"refused ");
    text.push_decimal(fault.number());
    text.push(b" at ");
    text.push_decimal(fault.place());
    text.push(b"\n");
    text.written
}
