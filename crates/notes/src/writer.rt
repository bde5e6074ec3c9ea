// Writes a note.

ghost use Rattle.std.specs.Prelude.{◌++◌, ◌≡◌, ◌+◌, ◌≤◌, drop, length};
ghost use Rattle.rules.specs.Notes.{head_of, head_size};
ghost use Rattle.rules.specs.Records.{bytes_of};
ghost use Rattle.std.proofs.lemmas.List.Edits.{sets};

use super::reader::HEAD_BYTES;

// Puts a "little-endian 32-bit number" at a place.
fn put_number(out: &mut [u8], at: usize, n: usize)
    requires { at + 4 ≤ length out.old }
    ensures { out.new ≡ sets out.old at (bytes_of 4 n) }
{
    put_bytes(&n.to_le_bytes()[..4], out, at);
}

// Puts bytes at a place.
fn put_bytes(src: &[u8], out: &mut [u8], at: usize)
    requires { at + length src.now ≤ length out.old }
    ensures { out.new ≡ sets out.old at src.now }
{
    out[at..at + src.len()].copy_from_slice(src);
}

// Puts the note of two lists, with their numbers of names, at the start of the output.
pub fn put_note(text: &[u8], data: &[u8], texts: usize, datas: usize, out: &mut [u8])
    requires { head_size + length text.now + length «data».now ≤ length out.old }
    ensures { out.new ≡ head_of texts (length text.now) datas (length «data».now) ++ (text.now ++ «data».now) ++ drop (head_size + length text.now + length «data».now) out.old }
{
    put_number(out, 0, texts);
    put_number(out, 4, text.len());
    put_number(out, 8, datas);
    put_number(out, 12, data.len());
    put_bytes(text, out, HEAD_BYTES);
    put_bytes(data, out, HEAD_BYTES + text.len());
}
