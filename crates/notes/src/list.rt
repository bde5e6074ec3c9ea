// Names laid out with their zeros, end to end.

ghost use Rattle.std.specs.Prelude.{◌≡◌, ◌≤◌, MatchOption, [], drop, length, take};
ghost use Rattle.rules.specs.Notes.{name_ok, size_of, strings};
ghost use Rattle.notes.specs.Steps.{IsCount, Split, word_length};

// "A list of over 16 names, ANY counted, is bad".
const MOST_NAMES: usize = 16;

// "1 to 15 bytes", and the zero.
pub const NAME_BYTES: usize = 16;

// The first zero byte, else the end.
pub fn end_of(bytes: &[u8]) -> usize
    ensures end { result ≡ word_length bytes.now }
    ensures within { result ≤ length bytes.now }
{
    bytes
        .iter()
        .position(|byte| *byte == 0)
        .unwrap_or(bytes.len())
}

// The first string, without its zero, and the bytes behind that zero; none if no zero is left.
pub fn split_string(bytes: &[u8]) -> Option<(&[u8], &[u8])>
    ensures { MatchOption result (strings bytes.now ≡ []) (λ both. Split bytes.now both.0.now both.1.now) }
{
    let end = end_of(bytes);
    if end == bytes.len() {
        return None;
    }
    Some((&bytes[..end], &bytes[end + 1..]))
}

// The bytes from the k-th string on: behind the size of those before it.
pub fn strings_from(bytes: &[u8], k: usize) -> &[u8]
    ensures rest { result.now ≡ drop (size_of (take k (strings bytes.now))) bytes.now }
    ensures within { size_of (take k (strings bytes.now)) ≤ length bytes.now }
{
    let mut left = bytes;
    for _passed in 0..k {
        let Some((_, rest)) = split_string(left) else {
            return left;
        };
        left = rest;
    }
    left
}

// The string, without its zero, may be a name; `last` says that it is the last of its list.
#[inline]
pub fn name_ok(word: &[u8], last: bool) -> bool
    ensures { result ≡ name_ok word.now last }
{
    let text = word == b"text".as_slice();
    let data = word == b"data".as_slice();
    let any = word == b"any".as_slice();
    let closing = word == b"ANY".as_slice();
    (1 <= word.len()) & (word.len() <= 15) & !text & !data & !any & (last | !closing)
}

// The number of names of a list, none if it is bad: string by string.
fn count_names(list: &[u8]) -> Option<usize>
    ensures { IsCount list.now result }
{
    let mut left = list;
    let mut n = 0;
    // A `while let`: an iterator over the strings hides the bytes behind each, of which `last` and the end tell whether any are left.
    while let Some((word, rest)) = split_string(left) {
        let full = MOST_NAMES <= n;
        if full {
            return None;
        }
        let last = rest.is_empty();
        if !name_ok(word, last) {
            return None;
        }
        left = rest;
        n += 1;
    }
    if !left.is_empty() {
        return None;
    }
    Some(n)
}

// The same: a list that is too long is bad, whatever it holds. Not inlined into `write_note`, which counts two lists: short names took two
// fifths more time there.
#[inline(never)]
pub fn count(list: &[u8]) -> Option<usize>
    ensures { IsCount list.now result }
{
    if MOST_NAMES * NAME_BYTES < list.len() {
        return None;
    }
    count_names(list)
}
