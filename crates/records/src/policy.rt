// What an install asks for: document 01, refusals 5 and 6; and request M-103, from the job's own numbers to system nodes.

ghost use Rattle.std.specs.Prelude.{true, ◌&&◌, List, ◌≡◌, ℕ, ◌≤◌, leb, ltb, length, take};
ghost use Rattle.rules.specs.Basics.{all};
ghost use Rattle.rules.specs.Masks.{most_nodes};
ghost use Rattle.rules.specs.Records.{Policy as Asked, places_per_job, carries, mode_of};
ghost use Rattle.rules.specs.Maps.{map_size, nodes_in, turned, named_places, within_map};
ghost use Rattle.rules.specs.Calls.{policy_known, mask_fits, policy_fits};
ghost use Rattle.records.specs.Jobs.{asked, stands, Asks, Stands};

use super::record::{Carries, Row};
use maps::node_map::NodeMap;
use maps::turning;
use nodemask::Mask;
use rules;
use rules::PLACES_PER_JOB;

// The policy that a job asks for, in its own numbers: a mask of application nodes, or of ranks where it is relative, and `len` places, of
// which `places` has the first, and zeros past their end. Mode and flag are numbers: what is handed in may be any, and is refused 5.
#[derive(Clone, Copy)]
pub struct AppPolicy {
    pub mode: u64,
    pub flag: u64,
    pub user: u64,
    pub len: usize,
    pub places: [u8; PLACES_PER_JOB],
}

// The same in system nodes: a type of its own, since a rule has application and system nodes of different kinds in the code. Mode and flag are
// numbers here too, those that were asked for: `Stands`, and what `Record::installed` stores, speak of them.
#[derive(Clone, Copy)]
pub struct Policy {
    pub mode: u64,
    pub flag: u64,
    pub user: Mask,
    pub len: usize,
    pub places: [u8; PLACES_PER_JOB],
}

impl AppPolicy {
    // "unknown mode or flag; a flag with modes 0, 4, 5, 6 or with preferred and an empty mask"
    pub fn known(self) -> bool
        ensures { (ps : List ℕ) → result ≡ policy_known (asked self ps) }
    {
        match Row::of(self.mode).0 {
            Carries::Nothing | Carries::AList => self.flag == 0,
            Carries::AMask => (self.flag <= 2)
                & ((self.flag == 0) | !((self.mode == 1) & (self.user == 0))),
            Carries::Unknown => false,
        }
    }

    // How many of its places name application nodes. M-104: "a 255 in the last place of a mode 4 list" names none.
    fn naming(self) -> usize
        requires { self.len ≤ places_per_job }
        ensures { (result ≤ self.len) × ((p : Asked) → Asks self p → take result self.places ≡ named_places p) }
    {
        let places = self.places;
        if (self.mode == 4) & rules::closes(&places[..self.len]) {
            return self.len - 1;
        }
        self.len
    }

    // At most sixteen places, and "an application number past the map's end is 6": every one that is named has an entry in a map of so many.
    pub fn within(self, entries: u8) -> bool
        ensures tests { (p : Asked) (nodes : List ℕ) → Asks self p → entries ≡ length nodes → result ≡ (leb (length p.places) places_per_job && within_map nodes p) }
        ensures few { result ≡ true → self.len ≤ places_per_job }
    {
        if PLACES_PER_JOB < self.len {
            return false;
        }
        let places = self.places;
        let user = Mask(self.user);
        ((self.flag == 2) | user.below(entries as usize))
            & turning::places_within(&places[..self.naming()], entries)
    }

    // "User masks and places are turned into system nodes at install ..; a relative mask doesn't, being ranks already"
    pub fn turned(self, map: NodeMap) -> Policy
        requires { (self.len ≤ places_per_job) × (map.len ≤ map_size) × (all (λ k. ltb k most_nodes) (nodes_in map.bytes.now) ≡ true) }
        ensures stands { let m = map.entry in (p : Asked) → Asks self p → Stands result (turned (nodes_in m.bytes.now) p) }
        ensures same { (result.mode ≡ self.mode) × (result.flag ≡ self.flag) × (result.len ≡ self.len) }
    {
        let asked = self.places;
        let places = map.turned_places(&asked[..self.len]);
        let user = if self.flag == 2 {
            Mask(self.user)
        } else {
            map.turned_mask(self.user)
        };
        Policy {
            mode: self.mode,
            flag: self.flag,
            user,
            len: self.len,
            places,
        }
    }
}

impl Policy {
    // "flag 0 or 1 with a bit at N or above, or with a non-empty mask that misses the allowed set"
    fn mask_fits(self, nodes: usize, allowed: Mask) -> bool
        ensures { (ps : List ℕ) → result ≡ mask_fits nodes allowed.0 (stands self ps) }
    {
        let user = self.user;
        (self.flag == 2) | (user.below(nodes) & (user.is_empty() | !user.both(allowed).is_empty()))
    }

    // "bind or interleave with an empty mask; .. modes 4 to 6 with 0 or over 16 places"
    pub fn fits(self, nodes: usize, allowed: Mask) -> bool
        ensures { (ps : List ℕ) → length ps ≡ self.len → result ≡ policy_fits (carries (mode_of self.mode)) nodes allowed.0 (stands self ps) }
    {
        let none = self.user.is_empty();
        match Row::of(self.mode).0 {
            Carries::Nothing => none & (self.len == 0),
            Carries::AMask => ((self.mode == 1) | !none)
                & self.mask_fits(nodes, allowed)
                & (self.len == 0),
            Carries::AList => none & ((1 <= self.len) & (self.len <= PLACES_PER_JOB)),
            Carries::Unknown => false,
        }
    }
}
