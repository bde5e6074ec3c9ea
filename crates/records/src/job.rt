// A decoded job: each mode carries its own data and nothing of another's.

ghost use Rattle.std.specs.Prelude.{true, List, ◌≡◌, ℕ, ◌<◌};
ghost use Rattle.rules.specs.Records.{flag_of, fresh, flag_known, well_formed, effective_at_install, rebound};
ghost use Rattle.records.specs.Jobs.{flag_number, carried, masks, carried_in, carried_of, record_with, job_of, record_of};

use super::record::Record;
use super::words;
use nodemask::Mask;
use rules::{PLACES_PER_JOB, Place};

// "Flags: 0 none, 1 static, 2 relative"
#[derive(Clone, Copy)]
pub enum Flag {
    Plain,
    Static,
    Relative,
}

// Preferred, bind and interleave carry flag, user mask and effective mask; list, ring and early the list length; a cursor field is last.
#[derive(Clone, Copy)]
pub enum Mode {
    Default,
    Preferred(Flag, Mask, Mask),
    Bind(Flag, Mask, Mask),
    Interleave(Flag, Mask, Mask, u8),
    List(u8),
    Ring(u8, u8),
    Early(u8, u8),
}

// The places past the list length are zero.
#[derive(Clone, Copy)]
pub struct Job {
    pub mode: Mode,
    pub allowed: Mask,
    pub places: [u8; PLACES_PER_JOB],
}

impl Flag {
    // The flag of a known number. No `TryFrom`, which would be no plainer: who calls knows the number, and an `Err` could not come.
    pub fn of(number: u8) -> Flag
        ensures { flag_known (flag_of number) ≡ true → flag_number result ≡ number }
    {
        match number {
            0 => Flag::Plain,
            1 => Flag::Static,
            _ => Flag::Relative,
        }
    }

    // "Effective: user and allowed (flags 0, 1) or folded (2)"
    pub fn effective(self, user: Mask, allowed: Mask) -> Mask
        requires { 0 < allowed.0 }
        ensures { result.0 ≡ effective_at_install (flag_of (flag_number self)) user.0 allowed.0 }
    {
        match self {
            Flag::Plain | Flag::Static => user.both(allowed),
            Flag::Relative => user.folded(allowed),
        }
    }

    // "flag 0 remaps the effective mask, static takes user and allowed, relative folds afresh"
    fn rebound(self, user: Mask, effective: Mask, old: Mask, new: Mask) -> Mask
        requires { 0 < new.0 }
        ensures { (n c : ℕ) (ps : List ℕ) → record_with (masks n self user result c) new.0 ps ≡ rebound (record_with (masks n self user effective c) old.0 ps) new.0 }
    {
        match self {
            Flag::Plain => effective.remapped(old, new),
            Flag::Static => user.both(new),
            Flag::Relative => user.folded(new),
        }
    }
}

// The number of a flag.
impl From<Flag> for u8 {
    fn from(flag: Flag) -> u8
        ensures { result ≡ flag_number flag }
    {
        match flag {
            Flag::Plain => 0,
            Flag::Static => 1,
            Flag::Relative => 2,
        }
    }
}

impl Mode {
    // The mode of a well-formed record. No `From`, since of another record it says nothing, and no `TryFrom`: that the record is well
    // formed is tested before.
    pub fn of(from: Record) -> Mode
        ensures { (n : ℕ) → well_formed n (record_of from) ≡ true → carried_in result ≡ carried_of (record_of from) }
    {
        let Record {
            mode,
            len,
            cursor,
            user,
            effective,
            ..
        } = from;
        let flag = Flag::of(from.flag);
        match mode {
            1 => Mode::Preferred(flag, user, effective),
            2 => Mode::Bind(flag, user, effective),
            3 => Mode::Interleave(flag, user, effective, cursor),
            4 => Mode::List(len),
            5 => Mode::Ring(len, cursor),
            6 => Mode::Early(len, cursor),
            _ => Mode::Default,
        }
    }

    // The mode once the allowed nodes are others: the cursor stays.
    fn rebound(self, old: Mask, new: Mask) -> Mode
        requires { 0 < new.0 }
        ensures { (ps : List ℕ) → record_with (carried_in result) new.0 ps ≡ rebound (record_with (carried_in self) old.0 ps) new.0 }
    {
        match self {
            Mode::Preferred(flag, user, effective) => {
                Mode::Preferred(flag, user, flag.rebound(user, effective, old, new))
            }
            Mode::Bind(flag, user, effective) => {
                Mode::Bind(flag, user, flag.rebound(user, effective, old, new))
            }
            Mode::Interleave(flag, user, effective, cursor) => {
                Mode::Interleave(flag, user, flag.rebound(user, effective, old, new), cursor)
            }
            Mode::Default | Mode::List(_) | Mode::Early(_, _) => self,
            Mode::Ring(len, cursor) => Mode::Ring(len, cursor),
        }
    }
}

impl Job {
    // "Six zero words are a fresh job"
    pub const FRESH: Job = Job {
        mode: Mode::Default,
        allowed: Mask::EMPTY,
        places: [0; PLACES_PER_JOB],
    };

    // A fresh job.
    pub fn fresh() -> Job
        ensures { job_of result ≡ fresh }
    {
        Job::FRESH
    }

    // "Rebind replaces the allowed mask"
    pub fn rebound(self, new: Mask) -> Job
        requires { 0 < new.0 }
        ensures { job_of result ≡ rebound (job_of self) new.0 }
    {
        let mode = self.mode.rebound(self.allowed, new);
        let places = self.places;
        Job {
            mode,
            allowed: new,
            places,
        }
    }

    // A record with the job's allowed mask and places.
    fn with(self, mode: u8, flag: u8, len: u8, cursor: u8, user: Mask, effective: Mask) -> Record
        ensures { record_of result ≡ record_with (carried mode flag len cursor user.0 effective.0) self.allowed.0 self.places }
    {
        let Job {
            allowed,
            places,
            ..
        } = self;
        Record {
            mode,
            flag,
            len,
            cursor,
            rest: 0,
            user,
            allowed,
            effective,
            low: words::pack(places, Place(0)),
            high: words::pack(places, Place(8)),
        }
    }

    // The record that holds the job.
    pub fn as_record(self) -> Record
        ensures { record_of result ≡ job_of self }
    {
        let none = Mask::EMPTY;
        match self.mode {
            Mode::Default => self.with(0, 0, 0, 0, none, none),
            Mode::Preferred(flag, u, e) => self.with(1, u8::from(flag), 0, 0, u, e),
            Mode::Bind(flag, u, e) => self.with(2, u8::from(flag), 0, 0, u, e),
            Mode::Interleave(flag, u, e, cursor) => self.with(3, u8::from(flag), 0, cursor, u, e),
            Mode::List(len) => self.with(4, 0, len, 0, none, none),
            Mode::Ring(len, cursor) => self.with(5, 0, len, cursor, none, none),
            Mode::Early(len, cursor) => self.with(6, 0, len, cursor, none, none),
        }
    }
}
