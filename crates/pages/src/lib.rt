// The page picker: of a node's part of the page table, the lowest free page of the job's colour, or else the lowest free page, found and
// marked.

#![tactic(auto)]

ghost use Rattle.std.specs.Prelude.{◌≡◌, false, not, cond, ℕ, min, ◌+◌, ◌^◌, ◌%◌, ◌≤◌, ◌<◌, eqb, length, get_or, drop};
ghost use Rattle.rules.specs.Basics.{first, is_nil};
ghost use Rattle.pages.specs.FirstZero.{offset_of, shift, first_zero, mark, has_zero, zero_or_end, zeros};
ghost use Rattle.pages.specs.Colours.{is_free, free_from, free_of, pick_of, HeldBefore, Clears, HeldUnder};

use rules::Page;

// How far a page stands from the first page of its part.
#[derive(Clone, Copy, Debug, PartialEq, Eq, PartialOrd, Ord)]
pub struct Offset(pub usize);

impl Offset {
    // The page that stands so far after a first page.
    pub fn after(self, first: Page) -> Page
        requires { first.0 + self.0 < 2 ^ 32 }
        ensures { result.0 ≡ first.0 + self.0 }
    {
        Page(first.0 + (self.0 as u32))
    }
}

// Whether a byte is 0. There is no early exit, so that it is compiled to vectors.
fn has_zero(block: &[u8]) -> bool
    ensures { result ≡ has_zero block.now }
{
    let mut any = false;
    for byte in block {
        any = any | (*byte == 0);
    }
    any
}

// Passes over whole blocks that have no 0, from an index on. A `while`: it goes by blocks, and the index that it stops at is the answer.
fn skip(part: &[u8], from: usize, block: usize) -> usize
    requires { (from ≤ length part.now) × (0 < block) }
    ensures within { result ≤ length part.now }
    ensures same { shift from (first_zero (drop from part.now)) ≡ shift result (first_zero (drop result part.now)) }
{
    let mut i = from;
    while block <= part.len() - i {
        let end = i + block;
        let any = has_zero(&part[i..end]);
        if any {
            return i;
        }
        i = end;
    }
    i
}

// Where a block of so many bytes ends, or of those that are left. Tried as `from + size.min(len - from)`: where the last bytes are no whole
// block, a search then takes 5 to 15 ns more.
fn block_end(len: usize, from: usize, size: usize) -> usize
    requires { from ≤ len }
    ensures { result ≡ min len (from + size) }
{
    if len - from < size {
        return len;
    }
    from + size
}

// The index of a byte that is 0, else `none`.
fn index_of_zero(byte: u8, index: u8, none: u8) -> u8
    ensures { result ≡ cond (eqb byte 0) index none }
{
    if byte == 0 {
        return index;
    }
    none
}

// The index of the lowest 0 of a block, or its length. There is no early exit, so that it is compiled to vectors, and it is counted in a
// byte, as the lanes are.
fn lowest_zero(block: &[u8]) -> usize
    requires { length block.now ≤ 16 }
    ensures { result ≡ zero_or_end block.now }
{
    let len = block.len() as u8;
    let mut lowest = len;
    for i in 0..len {
        lowest = lowest.min(index_of_zero(block[i as usize], i, len));
    }
    lowest as usize
}

// Is the page at an index free? There is none past the end.
fn is_free(part: &[u8], at: usize) -> bool
    ensures { result ≡ is_free part.now at }
{
    if at < part.len() {
        return part[at] == 0;
    }
    false
}

// The lowest free page from an index on.
fn first_free(part: &[u8], from: usize) -> Option<Offset>
    requires { from ≤ length part.now }
    ensures { offset_of result ≡ shift from (first_zero (drop from part.now)) }
{
    if is_free(part, from) {
        return Some(Offset(from));
    }
    let wide = skip(part, from, 128);
    let narrow = skip(part, wide, 16);
    let mut i = narrow;

    // Tried with `step_by`, and as one block with no loop: 3 ns more for each search, or 12 ns more where the last bytes are no whole block;
    // the goal is 1.2 times the search before (docs/BENCHMARKS.md, the picker alone).
    while i < part.len() {
        let end = block_end(part.len(), i, 16);
        let at = i + lowest_zero(&part[i..end]);
        if at < end {
            return Some(Offset(at));
        }
        i = end;
    }
    None
}

// Has the part a free page?
pub fn has_free(part: &[u8]) -> bool
    ensures { result ≡ not (is_nil (free_from 0 part.now)) }
{
    first_free(part, 0).is_some()
}

// 1 for a byte that is 0.
fn one_if_zero(byte: u8) -> u8
    ensures { result ≡ cond (eqb byte 0) 1 0 }
{
    u8::from(byte == 0)
}

// How many bytes of a block are 0: counted in a byte, so that it is compiled to vectors.
fn zeros_in(block: &[u8]) -> u8
    requires { length block.now ≤ 128 }
    ensures { result ≡ zeros block.now }
{
    let mut count: u8 = 0;
    for byte in block {
        count += one_if_zero(*byte);
    }
    count
}

// How many pages of the part are free: block by block.
pub fn count_free(part: &[u8]) -> usize
    ensures { result ≡ zeros part.now }
{
    let mut count = 0;
    for block in part.chunks(128) {
        count += zeros_in(block) as usize;
    }
    count
}

// The lowest free page, given the lowest from an index on.
fn lowest_free(part: &[u8], from: usize, ahead: Option<Offset>) -> Option<Offset>
    requires { (from ≤ length part.now) × (offset_of ahead ≡ shift from (first_zero (drop from part.now))) }
    ensures { offset_of result ≡ first_zero part.now }
{
    let behind = first_free(&part[0..from], 0);
    behind.or(ahead)
}

// A mask's byte at an index: 0 at the colour.
fn shade(i: usize, colour: usize) -> u8
    ensures { i % 4 ≡ colour → result ≡ 0 }
{
    if i % 4 == colour {
        return 0;
    }
    255
}

// A mask that is 0 at the colour and 255 elsewhere.
fn mask_of(colour: usize) -> [u8; 16]
    ensures { Clears colour result }
{
    let mut mask = [255u8; 16];
    for (i, byte) in mask.iter_mut().enumerate() {
        *byte = shade(i, colour);
    }
    mask
}

// The lowest of the eight bytes of a block that stand 16 apart, from an index on.
fn lowest_of(block: &[u8], i: usize) -> u8
    requires { (length block.now ≡ 128) × (i < 16) }
    ensures { (j : ℕ) → j < 128 → j % 16 ≡ i → result ≤ get_or block.now j 0 }
{
    let mut lowest = 255u8;
    for k in 0..8 {
        lowest = lowest.min(block[16 * k + i]);
    }
    lowest
}

// Whether a byte of a block is 0 where the mask, laid end to end, is. There is no early exit, so that it is compiled to vectors.
fn has_clear(block: &[u8], mask: &[u8; 16]) -> bool
    requires { length block.now ≡ 128 }
    ensures { result ≡ false → HeldUnder mask.now 16 block.now }
{
    let mut any = false;
    for (i, shade) in mask.iter().enumerate() {
        any = any | ((lowest_of(block, i) | *shade) == 0);
    }
    any
}

// Passes over blocks of 128 that have no 0 at the mask's colour, from an index on. A `while`, as in `skip`. The
// two are not one function of a test: it would promise the test of each block, and each caller would carry that to its own search: no plainer.
fn skip_masked(part: &[u8], from: usize, mask: &[u8; 16]) -> usize
    requires { (from ≤ length part.now) × (from % 4 ≡ 0) }
    ensures within { (result ≤ length part.now) × (result % 4 ≡ 0) }
    ensures same { (c : ℕ) → Clears c mask.now → free_of c from part.now ≡ free_of c result part.now }
{
    let mut start = from;
    while 128 <= part.len() - start {
        let end = start + 128;
        let any = has_clear(&part[start..end], mask);
        if any {
            return start;
        }
        start = end;
    }
    start
}

// The lowest free page of the colour, from an index on.
fn first_coloured(part: &[u8], from: usize, colour: usize) -> Option<Offset>
    requires { (from ≤ length part.now) × (from % 4 ≡ 0) × (colour < 4) }
    ensures { offset_of result ≡ first (free_of colour from part.now) }
{
    let mask = mask_of(colour);
    let start = skip_masked(part, from, &mask);
    let mut at = start + colour;

    // Tried with `step_by`: it makes a second test in each turn, which takes 3 to 5 ns of 28, where the goal is 1.2 times the search before
    // (docs/BENCHMARKS.md, the picker alone).
    while at < part.len() {
        if part[at] == 0 {
            return Some(Offset(at));
        }
        at += 4;
    }
    None
}

// The first index of the colour from an index on.
fn next_of(from: usize, colour: usize) -> usize
    requires { (from < 2 ^ 63) × (colour < 4) }
    ensures { (from ≤ result) × (result < from + 4) × (result % 4 ≡ colour) }
{
    from + (colour + 4 - from % 4) % 4
}

// The page that a job of the colour gets. Pages of the colour before `from` are held.
fn choose(part: &[u8], from: usize, colour: usize) -> Option<Offset>
    requires { (from ≤ length part.now) × (colour < 4) × HeldBefore colour from part.now }
    ensures { offset_of result ≡ pick_of colour part.now }
{
    let next = next_of(from, colour);
    if is_free(part, next) {
        return Some(Offset(next));
    }
    let ahead = first_free(part, from);
    if let Some(lowest) = ahead {
        let near = next_of(lowest.0, colour);
        if is_free(part, near) {
            return Some(Offset(near));
        }
        let group = lowest.0 - lowest.0 % 4;
        let coloured = first_coloured(part, group, colour);
        if coloured.is_some() {
            return coloured;
        }
    }
    lowest_free(part, from, ahead)
}

// Marks the page that a job of the colour gets. Pages of the colour before `from` are held.
pub fn pick(part: &mut [u8], from: usize, colour: usize, holder: u8) -> Option<Offset>
    requires { (from ≤ length part.old) × (colour < 4) × HeldBefore colour from part.old }
    ensures answer { offset_of result ≡ pick_of colour part.old }
    ensures table { part.new ≡ mark part.old (pick_of colour part.old) holder }
{
    let page = choose(part, from, colour)?;
    part[page.0] = holder;
    Some(page)
}
