// The journal program: document 01, "The journal program". Standard input to standard output; the whole records that have arrived are
// answered without waiting for more.

#![tactic(auto)]

ghost use Rattle.std.specs.Prelude.{◌≡◌, ◌≤◌, length, IfOk};
ghost use Rattle.rules.specs.Decisions.{accept};
ghost use Rattle.rules.specs.Journal.{machine_size, opening};

use failure::Failure;
use journal::opening::LONGEST;
use journal::{answer, opening, reading};
use std::io::{Read, Write};

mod failure;
mod part;
mod stdio;

// Room for the longest machine record, in zeros.
fn opening_buffer() -> [u8; LONGEST]
    ensures { 358 ≡ length result }
{
    [0; LONGEST]
}

// Reads the machine record: its six head bytes, and as many more as these say; fewer at the end of input.
fn read_opening<R: Read>(reader: &mut R, bytes: &mut [u8]) -> Result<usize, Failure>
    requires { 358 ≡ length bytes.old }
    ensures { IfOk result (λ n. n ≤ 358) }
{
    let mut done = 0;
    let mut size = 6;
    // A proved loop has to end, which a `loop` or `while` over a stream doesn't show: it counts to a number that no run uses up.
    for _ in 0..u64::MAX {
        if done >= size {
            break;
        }
        let Some(came) = stdio::read_some(reader, &mut bytes[done..size])? else {
            break;
        };
        done += came;
        if done == 6 {
            size = opening::opening_size(bytes);
        }
    }
    Ok(done)
}

// The records after a good machine record, on free pages, their counts, fresh jobs and their maps, part by part until the run ends.
fn answer_records<R: Read, W: Write>(
    reader: &mut R,
    writer: &mut W,
    bytes: &[u8],
) -> Result<(), Failure>
    requires { opening bytes.now ≡ accept (machine_size bytes.now) }
{
    let mut pages = journal::free_pages();
    let mut jobs = journal::fresh_jobs();
    let nodes = reading::byte_at(bytes, 3);
    let mut free = opening::page_counts(bytes);
    let mut maps = journal::identity_maps(nodes);
    let mut input = part::input_buffer();
    let mut output = part::answer_buffer();
    let mut kept = 0;
    // As in `read_opening`: a proved loop has to end.
    for _ in 0..u64::MAX {
        let rest = part::answer_part(
            reader,
            writer,
            bytes,
            &mut pages,
            &mut jobs,
            &mut free[..nodes],
            &mut maps,
            &mut input,
            &mut output,
            kept,
        )?;
        match rest {
            Some(n) => kept = n,
            None => break,
        }
    }
    Ok(())
}

// A whole journal, and its answers.
fn answer_journal<R: Read, W: Write>(reader: &mut R, writer: &mut W) -> Result<(), Failure> {
    let mut buffer = opening_buffer();
    let n = read_opening(reader, &mut buffer)?;
    let bytes = &buffer[..n];
    match opening::verdict(bytes) {
        Ok(_) => answer_records(reader, writer, bytes),
        Err(refusal) => stdio::write_all(writer, &answer::fault(refusal)),
    }
}

// A read or a write that fails ends the run, is said on standard error, and is never answered as a damaged journal.
fn main(rt: HostRuntime) {
    if let Err(failure) = answer_journal(&mut rt.stdin(), &mut rt.stdout()) {
        // Where standard error fails too, nobody is left to be told.
        let _ = eprintln!(rt; "placer: {failure}");
    }
}
