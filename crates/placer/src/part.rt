// The records of a journal, a part at a time: what one read brings, after the bytes that the part before left over.

ghost use Rattle.std.specs.Prelude.{◌≡◌, ◌++◌, ◌+◌, ◌≤◌, length, take, drop};
ghost use Rattle.rules.specs.Calls.{tables_of};
ghost use Rattle.rules.specs.Journal.{machine_in};
ghost use Rattle.journal.specs.Opening.{Opened};
ghost use Rattle.journal.specs.Parts.{on_part};
ghost use Rattle.placer.specs.Parts.{Answered, Turn};

use super::failure::Failure;
use super::stdio;
use journal::answer::ANSWER_SIZE;
use journal::record::SHORTEST;
use journal::run;
use std::io::{Read, Write};

// The most bytes that are there at once: those that were kept and those that a read brings.
const MOST: usize = 65536;

// Room for them, in zeros.
pub fn input_buffer() -> [u8; MOST]
    ensures { 65536 ≡ length result }
{
    [0; MOST]
}

// Room for an answer to each record that the input has room for, and one more, in zeros.
pub fn answer_buffer() -> [u8; ANSWER_SIZE * (MOST / SHORTEST + 1)]
    ensures { 24588 ≡ length result }
{
    [0; ANSWER_SIZE * (MOST / SHORTEST + 1)]
}

// Moves the n bytes from a place on to the front.
fn keep(bytes: &mut [u8], from: usize, n: usize)
    requires { from + n ≤ length bytes.old }
    ensures { bytes.new ≡ take n (drop from bytes.old) ++ drop n bytes.old }
{
    bytes.copy_within(from..from + n, 0);
}

// Answers the records among the bytes that are there, and moves the others to the front. Where the input has ended, what is left is a
// "short record .. answers .. refusal 13". How many bytes of a record that has not arrived in full are left, or `None` where the run ends.
fn answer_there<W: Write>(
    writer: &mut W,
    opening: &[u8],
    pages: &mut [u8],
    jobs: &mut [u64],
    free: &mut [u32],
    maps: &mut [u8],
    input: &mut [u8],
    output: &mut [u8],
    there: usize,
    ended: bool,
) -> Result<Option<usize>, Failure>
    requires { Opened opening.now (tables_of pages.old jobs.old free.old maps.old) × (there ≤ length input.old) × (65536 ≡ length input.old) × (24588 ≡ length output.old) }
    ensures { Answered (on_part (machine_in opening.now) (tables_of pages.old jobs.old free.old maps.old) (take there input.old) ended output.old) (take there input.old) ended (tables_of pages.new jobs.new free.new maps.new) input.new output.new result }
{
    let part = run::run_part(
        opening,
        pages,
        jobs,
        free,
        maps,
        &input[..there],
        ended,
        output,
    );
    let used = part.read;
    let sent = stdio::write_all(writer, &output[..part.written]);
    keep(input, used, there - used);
    sent?;
    if part.more & !ended {
        return Ok(Some(there - used));
    }
    Ok(None)
}

// Reads once, after the bytes that were kept, and answers what is there: what is kept now, or `None` where the run ends.
pub fn answer_part<R: Read, W: Write>(
    reader: &mut R,
    writer: &mut W,
    opening: &[u8],
    pages: &mut [u8],
    jobs: &mut [u64],
    free: &mut [u32],
    maps: &mut [u8],
    input: &mut [u8],
    output: &mut [u8],
    kept: usize,
) -> Result<Option<usize>, Failure>
    requires { Opened opening.now (tables_of pages.old jobs.old free.old maps.old) × (kept ≤ length input.old) × (65536 ≡ length input.old) × (24588 ≡ length output.old) }
    ensures { Turn (machine_in opening.now) (tables_of pages.old jobs.old free.old maps.old) (take kept input.old) output.old (tables_of pages.new jobs.new free.new maps.new) input.new output.new result }
{
    match stdio::read_some(reader, &mut input[kept..])? {
        Some(came) => {
            let there = kept + came;
            answer_there(
                writer, opening, pages, jobs, free, maps, input, output, there, false,
            )
        }
        None => answer_there(
            writer, opening, pages, jobs, free, maps, input, output, kept, true,
        ),
    }
}
