// The calls that set a map, by value: `list` holds the list of the call, if it is not too long for a map.
// `keep` and `set` stay two: they call two functions of two laws, and one of them for both would need an enum and a law over it.

ghost use Rattle.std.specs.Prelude.{true, List, ◌≡◌, ℕ, ◌<◌, length};
ghost use Rattle.rules.specs.Answers.{answer_of};
ghost use Rattle.rules.specs.Maps.{map_size};
ghost use Rattle.rules.specs.Calls.{Tables, with_jobs, outcome, mapped_tables_ok, on_keep, on_set_map};
ghost use Rattle.book.specs.Says.{Named};

use records::{mapping, table};
use rules::{Answer, Refusal};

// A list that is too long for a map: 2 or 15, whichever of the two calls it is.
fn too_long(words: usize, job: usize) -> Answer
    ensures { (n : ℕ) (t : Tables) (all : List ℕ) → length t.records ≡ words → mapped_tables_ok n words (length t.maps) ≡ true → map_size < length all → (outcome (answer_of result) t ≡ on_keep n t job all) × (outcome (answer_of result) t ≡ on_set_map n t job all) }
{
    if !table::has_job(words, job) {
        return Err(Refusal::NoSuchJob);
    }
    Err(Refusal::BadMap)
}

// The tenant's call on tables that are in order.
pub fn keep(
    nodes: usize,
    jobs: &[u64],
    maps: &mut [u8],
    job: usize,
    list: &[u8],
    len: usize,
) -> Answer
    requires { mapped_tables_ok nodes (length jobs.now) (length maps.old) ≡ true }
    ensures { (t : Tables) (all : List ℕ) → Named len list.now all → outcome (answer_of result) (with_jobs t jobs.now maps.new) ≡ on_keep nodes (with_jobs t jobs.now maps.old) job all }
{
    if len <= list.len() {
        return mapping::keep_at(nodes, jobs, maps, job, &list[..len]);
    }
    too_long(jobs.len(), job)
}

// The administrator's call on tables that are in order.
pub fn set(
    nodes: usize,
    jobs: &[u64],
    maps: &mut [u8],
    job: usize,
    list: &[u8],
    len: usize,
) -> Answer
    requires { mapped_tables_ok nodes (length jobs.now) (length maps.old) ≡ true }
    ensures { (t : Tables) (all : List ℕ) → Named len list.now all → outcome (answer_of result) (with_jobs t jobs.now maps.new) ≡ on_set_map nodes (with_jobs t jobs.now maps.old) job all }
{
    if len <= list.len() {
        return mapping::set_at(nodes, jobs, maps, job, &list[..len]);
    }
    too_long(jobs.len(), job)
}
