// Writes the text of a mask: ascending maximal runs.

ghost use Rattle.std.specs.Prelude.{◌≡◌, ◌+◌, ◌<◌, ◌≤◌, length, take};
ghost use Rattle.std.proofs.lemmas.List.Edits.{sets};
ghost use Rattle.rules.specs.Masks.{most_nodes};
ghost use Rattle.rules.specs.Text.{decimal};
ghost use Rattle.nodelist.specs.Writer.{FirstFrom, run_of, line_run, line_of, line_bytes};
ghost use Rattle.rules.specs.Answers.{decision_of};
ghost use Rattle.rules.specs.Decisions.{wrote, written};
ghost use Rattle.rules.specs.Text.{text_of};

use nodemask::Mask;
use rules::{Refusal, SysNode};

// A run of nodes from low to high.
#[derive(Clone, Copy)]
pub struct Run {
    pub low: SysNode,
    pub high: SysNode,
}

// The first run of a mask from a node on, if there is one: from 64 on there is none.
fn next_run(mask: Mask, from: u8) -> Option<Run>
    requires { from ≤ most_nodes }
    ensures { FirstFrom mask.0 from result }
{
    let above = u64::checked_shr(mask.0, from as u32)?;
    if above == 0 {
        return None;
    }
    let low = from + (u64::trailing_zeros(above) as u8);
    let ones = u64::trailing_zeros(!(mask.0 >> low)) as u8;
    Some(Run {
        low: SysNode(low),
        high: SysNode(low + ones - 1),
    })
}

// A number put into a line at an index: the index after it.
fn put_number(line: &mut [u8; 192], at: usize, n: usize) -> usize
    requires { (n < most_nodes) × (at + length (decimal n) ≤ line_bytes) }
    ensures end { result ≡ at + length (decimal n) }
    ensures put { line.new ≡ sets line.old at (decimal n) }
{
    if n < 10 {
        line[at] = b'0' + (n as u8);
        return at + 1;
    }
    line[at] = b'0' + ((n / 10) as u8);
    line[at + 1] = b'0' + ((n % 10) as u8);
    at + 2
}

// A comma and a run put into a line at an index: the index after them.
fn put_run(line: &mut [u8; 192], at: usize, run: Run) -> usize
    requires { (run.low.0 ≤ run.high.0) × (run.high.0 < most_nodes) × (at + length (line_run (run_of run.low.0 run.high.0)) ≤ line_bytes) }
    ensures end { result ≡ at + length (line_run (run_of run.low.0 run.high.0)) }
    ensures put { line.new ≡ sets line.old at (line_run (run_of run.low.0 run.high.0)) }
{
    let Run { low, high } = run;
    line[at] = b',';
    let mid = put_number(line, at + 1, low.0 as usize);
    if low == high {
        return mid;
    }
    line[mid] = b'-';
    put_number(line, mid + 1, high.0 as usize)
}

// All runs of a mask, each with a comma before it, put into a line: its length.
// A `while let`: it goes by runs, and each starts where the last one ended, so an iterator of them would be no plainer.
fn put_runs(line: &mut [u8; 192], mask: Mask) -> usize
    requires { length line.old ≡ line_bytes }
    ensures len { result ≡ length (line_of mask.0) }
    ensures text { take result line.new ≡ line_of mask.0 }
{
    let mut len = 0;
    let mut from: u8 = 0;
    while let Some(run) = next_run(mask, from) {
        len = put_run(line, len, run);
        from = run.high.0 + 1;
    }
    len
}

// The text of a mask put at the start of the output, if it fits there.
pub fn write_text(mask: Mask, out: &mut [u8]) -> Result<u64, Refusal>
    ensures { wrote (decision_of result) out.new ≡ written out.old (text_of mask.0) }
{
    let mut line = [0u8; 192];
    let len = put_runs(&mut line, mask);
    if len == 0 {
        return Ok(0);
    }
    if len - 1 > out.len() {
        return Err(Refusal::OutputTooShort);
    }
    let size = rules::copy(&line[1..len], out);
    Ok(size as u64)
}
