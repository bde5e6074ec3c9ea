// A call as sixteen words, and an answer as one.

ghost use Rattle.std.specs.Prelude.{◌≡◌, length, drop};
ghost use Rattle.rules.specs.Basics.{each};
ghost use Rattle.rules.specs.Records.{bytes_of};
ghost use Rattle.rules.specs.Maps.{map_size};
ghost use Rattle.rules.specs.Answers.{answer_of};
ghost use Rattle.rules.specs.Book.{Call as LawCall};
ghost use Rattle.rules.specs.Decisions.{accept};
ghost use Rattle.book.specs.Says.{Says};
ghost use Rattle.replay.specs.Encoding.{call_words, word_at, filled, list_in, call_in, calls_ok, answer_word};
ghost use Rattle.replay.specs.Kinds.{KindOf};

use book::Call;
use records::words;
use rules::{Answer, MAP_BYTES, Numbers, PLACES_PER_JOB};

// The words of a call.
pub const CALL_WORDS: usize = 16;

// No places: those beside a call without a list of them.
const NO_PLACES: [u8; PLACES_PER_JOB] = [0; PLACES_PER_JOB];

// A call that is read, and the places of its list.
#[derive(Clone, Copy)]
pub struct Entry {
    pub call: Call,
    pub places: [u8; PLACES_PER_JOB],
}

// The kinds of calls.
#[derive(Clone, Copy)]
enum Kind {
    Request,
    Release,
    Rebind,
    Install,
    Clear,
    Fresh,
    Keep,
    SetMap,
    Drain,
}

// "1 request, 2 release, 3 rebind, 4 install, 5 clear", and from 16 on the kinds that the journal has not; no others are known.
fn kind_of(word: u64) -> Option<Kind>
    ensures { KindOf result word }
{
    match word {
        1 => Some(Kind::Request),
        2 => Some(Kind::Release),
        3 => Some(Kind::Rebind),
        4 => Some(Kind::Install),
        5 => Some(Kind::Clear),
        16 => Some(Kind::Fresh),
        17 => Some(Kind::Keep),
        18 => Some(Kind::SetMap),
        19 => Some(Kind::Drain),
        _ => None,
    }
}

// Is every call of the list of a known kind, and none cut short?
pub fn calls_ok(calls: &[u64]) -> bool
    ensures { result ≡ calls_ok calls.now }
{
    if calls.len() % CALL_WORDS != 0 {
        return false;
    }
    let mut ok = true;
    for call in calls.chunks(CALL_WORDS) {
        ok = ok & kind_of(call[0]).is_some();
    }
    ok
}

// The first sixteen places of a call's list; zeros past its end.
fn places_in(call: &[u64]) -> [u8; PLACES_PER_JOB]
    requires { length call.now ≡ call_words }
    ensures { result ≡ filled (list_in call.now) }
{
    let places = words::unpack(call[8], call[9]);
    if call[5] < PLACES_PER_JOB as u64 {
        let len = call[5] as usize;
        return words::padded(&places[..len]);
    }
    places
}

// The bytes of words 8 to 15: a list for a map, if it is not longer.
fn list_in(call: &[u64], list: &mut [u8; MAP_BYTES])
    requires { (length call.now ≡ call_words) × (length list.old ≡ map_size) }
    ensures { list.new ≡ each (bytes_of 8) (drop 8 call.now) }
{
    for (i, byte) in list.iter_mut().enumerate() {
        *byte = words::byte(call[8 + i / 8], i % 8);
    }
}

// The install that the words say.
fn install_in(call: &[u64]) -> Call
    requires { length call.now ≡ call_words }
    ensures { result ≡ Call.Install (word_at call.now 1) (word_at call.now 2) (word_at call.now 3) (word_at call.now 4) (word_at call.now 5) }
{
    Call::Install {
        job: call[1] as usize,
        mode: call[2],
        flag: call[3],
        mask: call[4],
        len: call[5] as usize,
    }
}

// The call that the words say; the list of a call that sets a map is put beside it. Each call is of a known kind by now (`calls_ok`).
pub fn read_call(call: &[u64], list: &mut [u8; MAP_BYTES]) -> Entry
    requires { (length call.now ≡ call_words) × (length list.old ≡ map_size) }
    ensures says { (c : LawCall) → call_in call.now ≡ accept c → Says result.call result.places list.new c }
    ensures long { length list.new ≡ map_size }
{
    let kind = kind_of(call[0]).unwrap_or(Kind::Fresh);
    let job = call[1] as usize;
    let len = call[5] as usize;
    let (call, places) = match kind {
        Kind::Request => {
            let cpu = call[2] as usize;
            (Call::Request { job, cpu }, NO_PLACES)
        }
        Kind::Release => {
            let page = call[2] as usize;
            (Call::Release { job, page }, NO_PLACES)
        }
        Kind::Rebind => {
            let allowed = call[2];
            (Call::Rebind { job, allowed }, NO_PLACES)
        }
        Kind::Install => (install_in(call), places_in(call)),
        Kind::Clear => (Call::Clear { job }, NO_PLACES),
        Kind::Fresh => (Call::Fresh, NO_PLACES),
        Kind::Keep => {
            list_in(call, list);
            (Call::Keep { job, len }, NO_PLACES)
        }
        Kind::SetMap => {
            list_in(call, list);
            (Call::SetMap { job, len }, NO_PLACES)
        }
        Kind::Drain => {
            let room = call[2] as usize;
            (Call::Drain { node: job, room }, NO_PLACES)
        }
    };
    Entry { call, places }
}

// An answer in one word.
pub fn answer_word(answer: Answer) -> u64
    ensures { result ≡ answer_word (answer_of answer) }
{
    let told = Numbers::from(answer);
    told.refusal as u64 + told.node as u64 * 256 + told.page as u64 * 4_294_967_296
}
