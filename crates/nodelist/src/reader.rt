// Reads the items of a node-list text, a byte at a time.

ghost use Rattle.std.specs.Prelude.{◌≡◌, ◌<◌, ◌≤◌};
ghost use Rattle.std.specs.Int.Bits.{bit_or};
ghost use Rattle.rules.specs.Masks.{most_nodes};
ghost use Rattle.nodelist.specs.Reader.{Fits, grown, number_below, range_below, with_digit, with_dash, with_byte};
ghost use Rattle.nodelist.specs.Reader.{span, closed, stepped, ended, numbers_read, items_read};

use nodemask;
use nodemask::{Mask, Ranks};

// A set of numbers below 64: bit n stands for n. The form of a text says whether they are nodes or ranks.
#[derive(Clone, Copy)]
pub struct Numbers(pub u64);

// The item that is being read.
#[derive(Clone, Copy)]
pub enum Item {
    Empty,
    Number(usize),
    Dashed(usize),
    Range(usize, usize),
    Broken,
}

// Where a reader stands: what the items passed have named, and the item that is being read.
#[derive(Clone, Copy)]
pub struct Progress {
    pub named: Numbers,
    pub item: Item,
}

// A number with one digit more. After 0 there is none below the limit.
fn grown(value: usize, digit: usize, limit: usize) -> usize
    requires { (value < most_nodes) × (digit < 10) }
    ensures { result ≡ grown limit value digit }
{
    if value == 0 {
        return limit;
    }
    value * 10 + digit
}

impl Numbers {
    pub const EMPTY: Numbers = Numbers(0);

    // The numbers from low to high put in.
    fn with_span(self, low: usize, high: usize) -> Numbers
        requires { (low ≤ high) × (high < most_nodes) }
        ensures { result.0 ≡ bit_or self.0 (span low high) }
    {
        let under = nodemask::low_bits(low);
        Numbers(self.0 | (nodemask::low_bits(high + 1) - under))
    }
}

// The nodes of these numbers.
impl From<Numbers> for Mask {
    fn from(numbers: Numbers) -> Mask
        ensures { result.0 ≡ numbers.0 }
    {
        Mask(numbers.0)
    }
}

// The ranks of these numbers.
impl From<Numbers> for Ranks {
    fn from(numbers: Numbers) -> Ranks
        ensures { result.0 ≡ numbers.0 }
    {
        Ranks(numbers.0)
    }
}

impl Item {
    fn number(value: usize, limit: usize) -> Item
        ensures { result ≡ number_below limit value }
    {
        if value < limit {
            return Item::Number(value);
        }
        Item::Broken
    }

    fn range(low: usize, value: usize, limit: usize) -> Item
        ensures { result ≡ range_below limit low value }
    {
        if value < limit {
            return Item::Range(low, value);
        }
        Item::Broken
    }

    fn digit(self, digit: usize, limit: usize) -> Item
        requires { (Fits limit self) × (limit ≤ most_nodes) × (digit < 10) }
        ensures { result ≡ with_digit limit self digit }
    {
        match self {
            Item::Empty => Item::number(digit, limit),
            Item::Number(value) => Item::number(grown(value, digit, limit), limit),
            Item::Dashed(low) => Item::range(low, digit, limit),
            Item::Range(low, value) => Item::range(low, grown(value, digit, limit), limit),
            Item::Broken => Item::Broken,
        }
    }

    fn dash(self) -> Item
        ensures { result ≡ with_dash self }
    {
        match self {
            Item::Number(value) => Item::Dashed(value),
            Item::Empty | Item::Dashed(_) | Item::Range(_, _) | Item::Broken => Item::Broken,
        }
    }

    // The item with one byte more, not a comma.
    fn byte(self, x: u8, limit: usize) -> Item
        requires { (Fits limit self) × (limit ≤ most_nodes) }
        ensures { result ≡ with_byte limit self x }
    {
        if x == b'-' {
            return self.dash();
        }
        if x < b'0' {
            return Item::Broken;
        }
        if x > b'9' {
            return Item::Broken;
        }
        self.digit((x - b'0') as usize, limit)
    }
}

impl Progress {
    // The item ends here: a number or a range names its numbers, anything else is broken.
    fn close(self) -> Progress
        requires { Fits most_nodes self.item }
        ensures { result ≡ closed self.named self.item }
    {
        let Progress { named, item } = self;
        let broken = Progress {
            named,
            item: Item::Broken,
        };
        match item {
            Item::Number(value) => Progress {
                named: named.with_span(value, value),
                item: Item::Empty,
            },
            Item::Range(low, high) => {
                if low <= high {
                    return Progress {
                        named: named.with_span(low, high),
                        item: Item::Empty,
                    };
                }
                broken
            }
            Item::Empty | Item::Dashed(_) | Item::Broken => broken,
        }
    }

    // One byte more.
    fn step(self, x: u8, limit: usize) -> Progress
        requires { (Fits limit self.item) × (limit ≤ most_nodes) }
        ensures { result ≡ stepped limit self x }
    {
        if x == b',' {
            return self.close();
        }
        Progress {
            item: self.item.byte(x, limit),
            ..self
        }
    }

    // The text ends here: the numbers that it names, if the last item ended well.
    fn end(self) -> Option<Numbers>
        requires { Fits most_nodes self.item }
        ensures { numbers_read result ≡ ended self }
    {
        let Progress { named, item } = self.close();
        match item {
            Item::Empty => Some(named),
            Item::Number(_) | Item::Dashed(_) | Item::Range(_, _) | Item::Broken => None,
        }
    }
}

// The numbers below the limit that a text of items names, if all are items.
pub fn read_items(text: &[u8], limit: usize) -> Option<Numbers>
    requires { limit ≤ most_nodes }
    ensures { numbers_read result ≡ items_read limit text.now }
{
    let mut at = Progress {
        named: Numbers::EMPTY,
        item: Item::Empty,
    };
    for x in text {
        at = at.step(*x, limit);
    }
    at.end()
}
