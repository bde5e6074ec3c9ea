// The shared types of the placer. The rules themselves, document 01 as definitions, are in specs/.

#![tactic(auto)]

ghost use Rattle.std.specs.Prelude.{◌≡◌, ◌++◌, ℕ, ◌≤◌, length, take, drop, replicate};
ghost use Rattle.rules.specs.Calls.{numbers};
ghost use Rattle.rules.specs.Records.{closes};
ghost use Rattle.rules.specs.Answers.{number_of, answer_of, decision_of, numbers_in, in_numbers, number_in, ordered_of, order_numbers, order_numbers_in};

// A node number, a page number and a place in a list are three kinds of number; and a node's number on the machine, by which the tables
// go, is another than its number in a job's map, by which the job goes.
#[derive(Clone, Copy, Debug, PartialEq, Eq, PartialOrd, Ord)]
pub struct SysNode(pub u8);

#[derive(Clone, Copy, Debug, PartialEq, Eq, PartialOrd, Ord)]
pub struct AppNode(pub u8);

#[derive(Clone, Copy, Debug, PartialEq, Eq, PartialOrd, Ord)]
pub struct Page(pub u32);

#[derive(Clone, Copy, Debug, PartialEq, Eq, PartialOrd, Ord)]
pub struct Place(pub u8);

// "N nodes, 1 to 64", "1 to 64 jobs", "six [words] to a job", "sixteen list places".
pub const MOST_NODES: usize = 64;

pub const MOST_JOBS: usize = 64;

pub const WORDS_PER_JOB: usize = 6;

pub const PLACES_PER_JOB: usize = 16;

// "64 bytes a job": a job's map.
pub const MAP_BYTES: usize = 64;

// Node and page of an answer that names none; and the bytes behind the nodes of a map.
pub const NO_NODE: u8 = 0xFF;

// The last place of a mode 4 list that stands for near(CPU's node).
pub const CLOSING_PLACE: u8 = 0xFF;

const NO_PAGE: u32 = 0xFFFF_FFFF;

// M-104: "a 255 in the last place": do the places end in it?
pub fn closes(places: &[u8]) -> bool
    ensures { result ≡ closes places.now }
{
    places.last() == Some(&CLOSING_PLACE)
}

// Copies a list over equal bytes: its first entries, as many as have room.
// It is not `copy`: here a list may be cut, and equal bytes are left behind it; there all have room, and what stood behind them is left.
pub fn copy_first(list: &[u8], out: &mut [u8])
    ensures { (w v : ℕ) → out.old ≡ replicate w v → out.new ≡ take w (list.now ++ replicate w v) }
{
    let n = list.len().min(out.len());
    out[..n].copy_from_slice(&list[..n]);
}

// Copies bytes over the first of others, which have room for them, and tells how many they are.
pub fn copy(src: &[u8], out: &mut [u8]) -> usize
    requires { length src.now ≤ length out.old }
    ensures count { result ≡ length src.now }
    ensures bytes { out.new ≡ take (length src.now) src.now ++ drop (length src.now) out.old }
{
    let n = src.len();
    out[..n].copy_from_slice(src);
    n
}

// Why a call was refused: document 01, "Refusal numbers", from 1 on; 14 is of request M-100, 15 of M-103, 16 of M-104,
// 17 of M-107.
#[derive(Clone, Copy, Debug, PartialEq, Eq)]
pub enum Refusal {
    BadTables,
    NoSuchJob,
    NoSuchCpu,
    MalformedRecord,
    UnknownPolicy,
    DoesNotFit,
    NothingAllowed,
    NoRoom,
    NothingEffective,
    NotHeld,
    OutputTooShort,
    BadText,
    DamagedJournal,
    WrongCount,
    BadMap,
    BadNote,
    NowhereToGo,
}

// What a call that is not refused does. A node is named by its number in the job's map, FF where it has none. A drain says how many pages
// it moved.
#[derive(Clone, Copy, Debug, PartialEq, Eq)]
pub enum Effect {
    Granted(AppNode, Page),
    Released(AppNode, Page),
    Done,
    Drained(u32),
}

// What a call answers.
pub type Answer = Result<Effect, Refusal>;

// How many nodes near(x) lists, and in how many rounds.
#[derive(Clone, Copy, Debug, PartialEq, Eq)]
pub struct NearCount {
    pub nodes: u8,
    pub rounds: u32,
}

// An answer in numbers: refusal 0 is none.
#[repr(C)]
#[derive(Clone, Copy, Debug, PartialEq, Eq)]
pub struct Numbers {
    pub refusal: u8,
    pub node: u8,
    pub page: u32,
}

// A decision in numbers: refusal 0 is none, and the value is 0 on a refusal.
#[repr(C)]
#[derive(Clone, Copy, Debug, PartialEq, Eq)]
pub struct Number {
    pub refusal: u8,
    pub value: u64,
}

// What near(x) answers, in numbers: refusal 0 is none, and the others are 0 on a refusal.
#[repr(C)]
#[derive(Clone, Copy, Debug, PartialEq, Eq)]
pub struct OrderNumbers {
    pub refusal: u8,
    pub nodes: u8,
    pub rounds: u32,
}

// A part of the caller's bytes: 0 and 0 is an empty one.
#[repr(C)]
#[derive(Clone, Copy, Debug, PartialEq, Eq)]
pub struct Part {
    pub start: usize,
    pub len: usize,
}

// The number of a refusal.
impl From<Refusal> for u8 {
    fn from(why: Refusal) -> u8
        ensures { result ≡ number_of why }
    {
        match why {
            Refusal::BadTables => 1,
            Refusal::NoSuchJob => 2,
            Refusal::NoSuchCpu => 3,
            Refusal::MalformedRecord => 4,
            Refusal::UnknownPolicy => 5,
            Refusal::DoesNotFit => 6,
            Refusal::NothingAllowed => 7,
            Refusal::NoRoom => 8,
            Refusal::NothingEffective => 9,
            Refusal::NotHeld => 10,
            Refusal::OutputTooShort => 11,
            Refusal::BadText => 12,
            Refusal::DamagedJournal => 13,
            Refusal::WrongCount => 14,
            Refusal::BadMap => 15,
            Refusal::BadNote => 16,
            Refusal::NowhereToGo => 17,
        }
    }
}

// "refusal, node or FF, .. page or FFFFFFFF"
impl From<Answer> for Numbers {
    #[tactic(auto, unfolding(crate::specs::Calls::numbers))]
    fn from(answer: Answer) -> Numbers
        ensures { numbers_in result ≡ numbers (answer_of answer) }
    {
        let (refusal, node, page) = match answer {
            Ok(Effect::Granted(node, page)) => (0, node.0, page.0),
            Ok(Effect::Released(node, page)) => (0, node.0, page.0),
            Ok(Effect::Done) => (0, NO_NODE, NO_PAGE),
            Ok(Effect::Drained(moves)) => (0, NO_NODE, moves),
            Err(why) => (u8::from(why), NO_NODE, NO_PAGE),
        };
        Numbers {
            refusal,
            node,
            page,
        }
    }
}

// 0 and the number, or the number of the refusal and 0.
impl From<Result<u64, Refusal>> for Number {
    fn from(decision: Result<u64, Refusal>) -> Number
        ensures { number_in result ≡ in_numbers (decision_of decision) }
    {
        match decision {
            Ok(value) => Number { refusal: 0, value },
            Err(why) => Number {
                refusal: u8::from(why),
                value: 0,
            },
        }
    }
}

// 0 and both numbers, or the number of the refusal, 0 and 0.
impl From<Result<NearCount, Refusal>> for OrderNumbers {
    fn from(order: Result<NearCount, Refusal>) -> OrderNumbers
        ensures { order_numbers_in result ≡ order_numbers (ordered_of order) }
    {
        match order {
            Ok(NearCount { nodes, rounds }) => OrderNumbers {
                refusal: 0,
                nodes,
                rounds,
            },
            Err(why) => OrderNumbers {
                refusal: u8::from(why),
                nodes: 0,
                rounds: 0,
            },
        }
    }
}
