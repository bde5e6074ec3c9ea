// A job's record by its fields, the table "Mode | Carries", and document 01's "A record is well formed if ..".

ghost use Rattle.std.specs.Prelude.{true, ◌++◌, ◌⊎◌, ◌≡◌, ℕ, ◌<◌, eqb, drop};
ghost use Rattle.rules.specs.Basics.{all};
ghost use Rattle.rules.specs.Records.{Policy as Stored, bytes_of, row_of, carries, mode_of, flag_of, unused_zero, allowed_fits, cursor_fits, no_masks, effective_fits, masks_fit, data_fits, well_formed, installed};
ghost use Rattle.records.specs.Jobs.{row_in, job_of, record_of, Stands};

use super::job::{Flag, Job, Mode};
use super::policy::Policy;
use super::words;
use nodemask::Mask;
use rules::{PLACES_PER_JOB, Place};

// What a mode carries. With `Unknown`, as the rules' own table has it (`row_of`): an `Option` would be no plainer in a `Row`.
#[derive(Clone, Copy)]
pub enum Carries {
    Nothing,
    AMask,
    AList,
    Unknown,
}

// What a mode's cursor is. With `NoCursor`, as the rules' own table has it (`row_of`), so that a row of it reads as there.
#[derive(Clone, Copy)]
pub enum Cursor {
    NoCursor,
    ANode,
    APlace,
}

// One row of the table "Mode | Carries": what the mode carries, and what its cursor is.
#[derive(Clone, Copy)]
pub struct Row(pub Carries, pub Cursor);

impl Row {
    // The row of a mode's number: an arm for each row, as in the table, which a `From` or joined arms would make no plainer.
    pub fn of(mode: u64) -> Row
        ensures { row_in result ≡ row_of (mode_of mode) }
    {
        match mode {
            0 => Row(Carries::Nothing, Cursor::NoCursor),
            1 => Row(Carries::AMask, Cursor::NoCursor),
            2 => Row(Carries::AMask, Cursor::NoCursor),
            3 => Row(Carries::AMask, Cursor::ANode),
            4 => Row(Carries::AList, Cursor::NoCursor),
            5 => Row(Carries::AList, Cursor::APlace),
            6 => Row(Carries::AList, Cursor::APlace),
            _ => Row(Carries::Unknown, Cursor::NoCursor),
        }
    }
}

// The fields of a job's words; `rest` is what word 0 holds above the cursor, `low` and `high` are words 4 and 5, sixteen places.
// Mode and flag are numbers: what is stored may be any, and a record with one that there is not is refused 4.
#[derive(Clone, Copy)]
pub struct Record {
    pub mode: u8,
    pub flag: u8,
    pub len: u8,
    pub cursor: u8,
    pub rest: u32,
    pub user: Mask,
    pub allowed: Mask,
    pub effective: Mask,
    pub low: u64,
    pub high: u64,
}

// The places of two words from one on are zero: those before it are shifted out.
fn zero_from(low: u64, high: u64, from: Place) -> bool
    ensures { result ≡ all (eqb 0) (drop from.0 (bytes_of 8 low ++ bytes_of 8 high)) }
{
    let from = from.0 as usize;
    if from < 8 {
        return (low >> (8 * from) == 0) & (high == 0);
    }
    if from < PLACES_PER_JOB {
        return high >> (8 * (from - 8)) == 0;
    }
    true
}

impl Record {
    // "unused bits and places are zero"
    fn unused_zero(self) -> bool
        ensures { result ≡ unused_zero (record_of self) }
    {
        (self.rest == 0) & zero_from(self.low, self.high, Place(self.len))
    }

    // "the allowed mask lies below N and is non-empty unless the mode is 0"
    fn allowed_fits(self, nodes: usize) -> bool
        ensures { result ≡ allowed_fits nodes (record_of self) }
    {
        self.allowed.below(nodes) & ((self.mode == 0) | !self.allowed.is_empty())
    }

    // "the cursor field is at most N in mode 3, at most the list length in 5 and 6, and 0 elsewhere"
    fn cursor_fits(self, nodes: usize) -> bool
        ensures { result ≡ cursor_fits nodes (record_of self) }
    {
        let cursor = self.cursor as usize;
        match Row::of(self.mode as u64).1 {
            Cursor::NoCursor => cursor <= 0,
            Cursor::ANode => cursor <= nodes,
            Cursor::APlace => cursor <= (self.len as usize),
        }
    }

    // "flag 0 and empty user and effective masks"
    fn no_masks(self) -> bool
        ensures { result ≡ no_masks (record_of self) }
    {
        (self.flag == 0) & self.user.is_empty() & self.effective.is_empty()
    }

    // "flag 0 needs .., static needs .., relative needs .."
    fn effective_fits(self, nodes: usize) -> bool
        requires { 0 < self.allowed.0 }
        ensures { result ≡ effective_fits nodes (record_of self) (flag_of self.flag) }
    {
        let Record {
            user,
            effective,
            ..
        } = self;
        match self.flag {
            0 => user.below(nodes) & !effective.is_empty() & effective.within(self.allowed),
            1 => user.below(nodes) & (effective == user.both(self.allowed)),
            2 => effective == user.folded(self.allowed),
            _ => false,
        }
    }

    // "In modes 1 to 3 the user mask is non-empty, except .."
    fn masks_fit(self, nodes: usize) -> bool
        requires { 0 < self.allowed.0 }
        ensures { result ≡ masks_fit nodes (record_of self) }
    {
        if self.user.is_empty() {
            return (self.mode == 1) & self.no_masks();
        }
        self.effective_fits(nodes)
    }

    // "modes 0, 4, 5, 6 have .. modes 0 to 3 have no list; modes 4 to 6 have 1 to 16 places"
    fn data_fits(self, nodes: usize) -> bool
        requires { (self.mode ≡ 0) ⊎ (0 < self.allowed.0) }
        ensures { result ≡ data_fits nodes (record_of self) (carries (mode_of self.mode)) }
    {
        let len = self.len as usize;
        match Row::of(self.mode as u64).0 {
            Carries::Nothing => self.no_masks() & (len == 0),
            Carries::AMask => self.masks_fit(nodes) & (len == 0),
            Carries::AList => self.no_masks() & ((1 <= len) & (len <= PLACES_PER_JOB)),
            Carries::Unknown => false,
        }
    }

    // "A record is well formed if: .."
    pub fn well_formed(self, nodes: usize) -> bool
        ensures { result ≡ well_formed nodes (record_of self) }
    {
        if !(self.unused_zero() & (self.mode <= 6) & (self.flag <= 2) & self.allowed_fits(nodes)) {
            return false;
        }
        self.data_fits(nodes) & self.cursor_fits(nodes)
    }

    // The job that a well-formed record holds.
    pub fn job(self) -> Job
        ensures { (n : ℕ) → well_formed n (record_of self) ≡ true → job_of result ≡ record_of self }
    {
        Job {
            mode: Mode::of(self),
            allowed: self.allowed,
            places: words::unpack(self.low, self.high),
        }
    }

    // "Install stores mode, flag, user mask or places, keeps the allowed mask and clears the rest"
    pub fn installed(self, policy: Policy) -> Record
        requires { (0 < self.allowed.0) × (policy.mode < 256) × (policy.flag < 3) × (policy.len < 256) }
        ensures { (p : Stored) → Stands policy p → record_of result ≡ installed (record_of self) p }
    {
        let flag = policy.flag as u8;
        let user = policy.user;
        let kept = self.allowed;
        let effective = Flag::of(flag).effective(user, kept);
        let places = policy.places;
        Record {
            mode: policy.mode as u8,
            flag,
            len: policy.len as u8,
            cursor: 0,
            rest: 0,
            user,
            allowed: kept,
            effective,
            low: words::pack(places, Place(0)),
            high: words::pack(places, Place(8)),
        }
    }
}
