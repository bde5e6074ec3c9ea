// Reads a note: the four numbers, then the text list and the data list.

ghost use Rattle.std.specs.Prelude.{true, ◌≡◌, ◌+◌, ◌≤◌, ◌<◌, length};
ghost use Rattle.rules.specs.Journal.{number};
ghost use Rattle.rules.specs.Notes.{has_name, list_part, note_ok};
ghost use Rattle.notes.specs.Lists.{number_of};

use super::{Which, list};

// The bytes of "the four counts".
pub const HEAD_BYTES: usize = 16;

// The "little-endian 32-bit number" at a place.
fn number(note: &[u8], at: usize) -> usize
    requires { at + 4 ≤ length note.now }
    ensures number { result ≡ number at 4 note.now }
    ensures small { result < 4294967296 }
{
    u32::from_le_bytes([note[at], note[at + 1], note[at + 2], note[at + 3]]) as usize
}

// "counts and sizes must fit exactly": the note is good.
pub fn note_ok(note: &[u8]) -> bool
    ensures { result ≡ note_ok note.now }
{
    if note.len() < HEAD_BYTES {
        return false;
    }
    let middle = HEAD_BYTES + number(note, 4);
    let end = middle + number(note, 12);
    if note.len() != end {
        return false;
    }
    let texts = list::count(&note[HEAD_BYTES..middle]);
    let datas = list::count(&note[middle..end]);
    let text_count = number(note, 0);
    let data_count = number(note, 8);
    (texts == Some(text_count)) & (datas == Some(data_count))
}

// The note is good and has a k-th name.
pub fn has_name(note: &[u8], k: usize) -> bool
    ensures { result ≡ has_name note.now k }
{
    if !note_ok(note) {
        return false;
    }
    k < number(note, 0) + number(note, 8)
}

// A list of a good note.
pub fn list_of(note: &[u8], which: Which) -> &[u8]
    requires { note_ok note.now ≡ true }
    ensures { result.now ≡ list_part note.now (number_of which) }
{
    let middle = HEAD_BYTES + number(note, 4);
    match which {
        Which::Text => &note[HEAD_BYTES..middle],
        Which::Data => &note[middle..],
    }
}
