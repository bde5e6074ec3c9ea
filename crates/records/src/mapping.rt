// The calls that change a job's map (request M-103): the tenant's, which may only drop nodes, and the administrator's.

ghost use Rattle.std.specs.Prelude.{true, ◌≡◌, length};
ghost use Rattle.rules.specs.Calls.{Tables, with_jobs, outcome, mapped_tables_ok, on_keep, on_set_map};
ghost use Rattle.rules.specs.Answers.{answer_of};

use super::table;
use maps::node_map::NodeMap;
use maps::{judging, turning};
use rules::{Answer, Effect, Refusal};

// The tenant's call on tables that are in order.
pub fn keep_at(nodes: usize, jobs: &[u64], maps: &mut [u8], job: usize, kept: &[u8]) -> Answer
    requires { mapped_tables_ok nodes (length jobs.now) (length maps.old) ≡ true }
    ensures { (t : Tables) → outcome (answer_of result) (with_jobs t jobs.now maps.new) ≡ on_keep nodes (with_jobs t jobs.now maps.old) job kept.now }
{
    if !table::has_job(jobs.len(), job) {
        return Err(Refusal::NoSuchJob);
    }
    let bytes = turning::of_job(maps, job);
    let Some(judged) = judging::judge(nodes, bytes) else {
        return Err(Refusal::BadMap);
    };
    let map = NodeMap {
        bytes,
        len: judged.len,
    };
    let Some(left) = map.keep(kept) else {
        return Err(Refusal::BadMap);
    };
    turning::store(maps, job, left);
    Ok(Effect::Done)
}

// The administrator's call on tables that are in order.
pub fn set_at(nodes: usize, jobs: &[u64], maps: &mut [u8], job: usize, list: &[u8]) -> Answer
    requires { mapped_tables_ok nodes (length jobs.now) (length maps.old) ≡ true }
    ensures { (t : Tables) → outcome (answer_of result) (with_jobs t jobs.now maps.new) ≡ on_set_map nodes (with_jobs t jobs.now maps.old) job list.now }
{
    if !table::has_job(jobs.len(), job) {
        return Err(Refusal::NoSuchJob);
    }
    let Some(new) = judging::listed(nodes, list) else {
        return Err(Refusal::BadMap);
    };
    turning::store(maps, job, new);
    Ok(Effect::Done)
}

// The tenant's call: the entries of its map that a job keeps, by their numbers.
pub fn keep_nodes(nodes: usize, jobs: &[u64], maps: &mut [u8], job: usize, kept: &[u8]) -> Answer
    ensures { (t : Tables) → outcome (answer_of result) (with_jobs t jobs.now maps.new) ≡ on_keep nodes (with_jobs t jobs.now maps.old) job kept.now }
{
    if !table::mapped_ok(nodes, jobs.len(), maps.len()) {
        return Err(Refusal::BadTables);
    }
    keep_at(nodes, jobs, maps, job, kept)
}

// The administrator's call: the nodes of a job's map. It differs from `keep_nodes` in the one call at its end and the law of that, `on_set_map`
// for `on_keep`: one function would take a closure and its law, and be no plainer.
pub fn set_map(nodes: usize, jobs: &[u64], maps: &mut [u8], job: usize, list: &[u8]) -> Answer
    ensures { (t : Tables) → outcome (answer_of result) (with_jobs t jobs.now maps.new) ≡ on_set_map nodes (with_jobs t jobs.now maps.old) job list.now }
{
    if !table::mapped_ok(nodes, jobs.len(), maps.len()) {
        return Err(Refusal::BadTables);
    }
    set_at(nodes, jobs, maps, job, list)
}
