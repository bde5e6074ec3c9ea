// Programs that name their memory: request M-104. Its definitions are in crates/rules/specs/Notes.antt.

#![tactic(auto)]

ghost use Rattle.std.specs.Prelude.{not, ◌≡◌, ◌+◌, ◌≤◌, eqb, length};
ghost use Rattle.rules.specs.Answers.{decision_of, part_of};
ghost use Rattle.rules.specs.Basics.{is_nil};
ghost use Rattle.rules.specs.Decisions.{wrote};
ghost use Rattle.rules.specs.Notes.{has_name, in_part, name_part, note_places, write_note};
ghost use Rattle.notes.specs.Lists.{number_of};

use maps::{judging, turning};
use reader::HEAD_BYTES;
use records::table;
use rules::{Part, Refusal};

mod list;
mod names;
mod places;
mod reader;
mod writer;

// The two lists of a note.
#[derive(Clone, Copy)]
enum Which {
    Text,
    Data,
}

impl From<u64> for Which {
    // 0 is the text list, any other number the data list.
    fn from(which: u64) -> Which
        ensures { eqb (number_of result) 0 ≡ eqb which 0 }
    {
        match which {
            0 => Which::Text,
            _ => Which::Data,
        }
    }
}

// "The k-th name, k from 0 and text before data": which part of the note it is.
pub fn name_part(note: &[u8], k: usize) -> Part
    ensures part { part_of result ≡ name_part note.now k }
    ensures within { result.start + result.len ≤ length note.now }
{
    if !reader::has_name(note, k) {
        return Part { start: 0, len: 0 };
    }
    let names = list::strings_from(&note[HEAD_BYTES..], k);
    let start = note.len() - names.len();
    let len = list::end_of(names);
    Part { start, len }
}

// The k-th name "is handed back as that part of the caller's own bytes, without its zero; an empty part if the note is bad or has no such
// name".
pub fn name(note: &[u8], k: usize) -> &[u8]
    ensures part { result.now ≡ in_part note.now (name_part note.now k) }
    ensures empty { is_nil result.now ≡ not (has_name note.now k) }
{
    let part = name_part(note, k);
    let start = part.start;
    let end = start + part.len;
    &note[start..end]
}

// A note's list turned into places by a table of names, for a job: how many places. `which` is 0 for the text list, else the data list is
// turned; no place means that the list drops to default.
pub fn note_places(
    nodes: usize,
    jobs: &[u64],
    maps: &[u8],
    names: &[u8],
    note: &[u8],
    job: usize,
    which: u64,
    out: &mut [u8],
) -> Result<u64, Refusal>
    ensures { wrote (decision_of result) out.new ≡ note_places nodes jobs.now maps.now names.now note.now job which out.old }
{
    if !table::mapped_ok(nodes, jobs.len(), maps.len()) {
        return Err(Refusal::BadTables);
    }
    if !names::table_ok(names, nodes) {
        return Err(Refusal::BadTables);
    }
    if !table::has_job(jobs.len(), job) {
        return Err(Refusal::NoSuchJob);
    }
    let map = turning::of_job(maps, job);
    let Some(_) = judging::judge(nodes, map) else {
        return Err(Refusal::BadMap);
    };
    places::turn_note(map, names, note, Which::from(which), out)
}

// The note of a text and a data list, "each laid out like the table", put at the start of the output: its length.
pub fn write_note(text: &[u8], data: &[u8], out: &mut [u8]) -> Result<u64, Refusal>
    ensures { wrote (decision_of result) out.new ≡ write_note text.now «data».now out.old }
{
    let Some(texts) = list::count(text) else {
        return Err(Refusal::BadNote);
    };
    let Some(datas) = list::count(data) else {
        return Err(Refusal::BadNote);
    };
    let size = HEAD_BYTES + text.len() + data.len();
    if out.len() < size {
        return Err(Refusal::OutputTooShort);
    }
    writer::put_note(text, data, texts, datas, out);
    Ok(size as u64)
}
