// A note's list turned into places.

ghost use Rattle.std.specs.Prelude.{ℕ, ◌≡◌, ◌≤◌, length, take};
ghost use Rattle.rules.specs.Answers.{decision_of};
ghost use Rattle.rules.specs.Decisions.{wrote, written};
ghost use Rattle.rules.specs.Maps.{nodes_in};
ghost use Rattle.rules.specs.Notes.{most_names, places_in, strings};
ghost use Rattle.rules.specs.Records.{places_per_job};
ghost use Rattle.notes.specs.Steps.{Tested, found_in, found_of, note_tests};
ghost use Rattle.notes.specs.Lists.{number_of};

use super::{Which, list, names, reader};
use maps::turning;
use rules::{CLOSING_PLACE, NO_NODE, PLACES_PER_JOB, Refusal, SysNode};

// "a place is the node's application number, a first match outside the map counting as an unknown name": none for an unknown name.
fn place_of(map: &[u8], table: &[u8], word: &[u8]) -> Option<u8>
    requires { (n : ℕ) × Tested n map.now table.now }
    ensures { found_of result ≡ found_in (strings table.now) (nodes_in map.now) word.now }
{
    if word == b"ANY".as_slice() {
        return Some(CLOSING_PLACE);
    }
    let node = names::first_match(table, word)?;
    let number = node as u8;
    let place = turning::named(map, SysNode(number)).0;
    if place == NO_NODE {
        return None;
    }
    Some(place)
}

// The places of a list put into a line: how many, 0 if a name is unknown: the rules' own answer, whose `places_in` is empty then.
fn put_places(map: &[u8], table: &[u8], list: &[u8], line: &mut [u8; PLACES_PER_JOB]) -> usize
    requires { ((n : ℕ) × Tested n map.now table.now) × (length (strings list.now) ≤ most_names) × (length line.old ≡ places_per_job) }
    ensures len { result ≡ length (places_in (strings table.now) (nodes_in map.now) (strings list.now)) }
    ensures places { take result line.new ≡ places_in (strings table.now) (nodes_in map.now) (strings list.now) }
{
    let mut left = list;
    let mut n = 0;
    // A `while let`, as in `names::first_match`, where an iterator was tried.
    while let Some((word, rest)) = list::split_string(left) {
        let Some(place) = place_of(map, table, word) else {
            return 0;
        };
        line[n] = place;
        left = rest;
        n += 1;
    }
    n
}

// The places of a list of at most 16 names put at the start of the output, if they fit there.
fn turn_list(map: &[u8], table: &[u8], list: &[u8], out: &mut [u8]) -> Result<u64, Refusal>
    requires { ((n : ℕ) × Tested n map.now table.now) × (length (strings list.now) ≤ most_names) }
    ensures { wrote (decision_of result) out.new ≡ written out.old (places_in (strings table.now) (nodes_in map.now) (strings list.now)) }
{
    let mut line = [0u8; PLACES_PER_JOB];
    let len = put_places(map, table, list, &mut line);
    if out.len() < len {
        return Err(Refusal::OutputTooShort);
    }
    out[..len].copy_from_slice(&line[..len]);
    Ok(len as u64)
}

// The tests 16 and 11, and the places of a note's list.
pub fn turn_note(
    map: &[u8],
    table: &[u8],
    note: &[u8],
    which: Which,
    out: &mut [u8],
) -> Result<u64, Refusal>
    requires { (n : ℕ) × Tested n map.now table.now }
    ensures { wrote (decision_of result) out.new ≡ note_tests (strings table.now) (nodes_in map.now) note.now (number_of which) out.old }
{
    if !reader::note_ok(note) {
        return Err(Refusal::BadNote);
    }
    let list = reader::list_of(note, which);
    turn_list(map, table, list, out)
}
