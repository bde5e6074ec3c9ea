// The job table and the calls that change it: install, rebind, clear; in `mapping` those that change a map. Each does what the rules say,
// for any other tables beside it.

#![tactic(auto)]

ghost use Rattle.std.specs.Prelude.{true, ◌≡◌, ◌≤◌, ◌<◌, length};
ghost use Rattle.rules.specs.Masks.{most_nodes};
ghost use Rattle.rules.specs.Records.{Policy as Asked, policy, job_count, record_at};
ghost use Rattle.rules.specs.Maps.{nodes_in, good_map};
ghost use Rattle.rules.specs.Calls.{Tables, with_records, with_jobs, outcome, applied, record_tables_ok, mapped_tables_ok, on_install, on_rebind, on_clear};
ghost use Rattle.rules.specs.Answers.{answer_of};
ghost use Rattle.records.specs.Jobs.{Asks};
ghost use Rattle.records.specs.Installs.{install_tests};

use job::Job;
use maps::node_map::NodeMap;
use maps::{judging, turning};
use nodemask::Mask;
use policy::AppPolicy;
use rules::{Answer, Effect, Refusal};

pub mod job;
pub mod mapping;
pub mod policy;
pub mod record;
pub mod table;
pub mod words;

// Install for a job with a good map.
fn install_mapped(
    nodes: usize,
    jobs: &mut [u64],
    map: NodeMap,
    job: usize,
    policy: AppPolicy,
) -> Answer
    requires { (job < job_count (length jobs.old)) × (nodes ≤ most_nodes) × (good_map nodes map.bytes.now ≡ true) }
    ensures { let m = map.entry in (t : Tables) (p : Asked) → Asks policy p → outcome (answer_of result) (with_records t jobs.new) ≡ applied (with_records t jobs.old) (install_tests nodes (nodes_in m.bytes.now) (record_at jobs.old job) job p) }
{
    let old = table::load(jobs, job);
    if !old.well_formed(nodes) {
        return Err(Refusal::MalformedRecord);
    }
    if !policy.known() {
        return Err(Refusal::UnknownPolicy);
    }
    let allowed = old.allowed;
    if allowed.is_empty() {
        return Err(Refusal::NothingAllowed);
    }
    if !policy.within(map.len) {
        return Err(Refusal::DoesNotFit);
    }
    let turned = policy.turned(map);
    if !turned.fits(nodes, allowed) {
        return Err(Refusal::DoesNotFit);
    }
    table::store(jobs, job, old.installed(turned));
    Ok(Effect::Done)
}

// Install on tables that are in order.
pub fn install_at(
    nodes: usize,
    jobs: &mut [u64],
    maps: &[u8],
    job: usize,
    policy: AppPolicy,
) -> Answer
    requires { mapped_tables_ok nodes (length jobs.old) (length maps.now) ≡ true }
    ensures { (t : Tables) (p : Asked) → Asks policy p → outcome (answer_of result) (with_jobs t jobs.new maps.now) ≡ on_install nodes (with_jobs t jobs.old maps.now) job p }
{
    if !table::has_job(jobs.len(), job) {
        return Err(Refusal::NoSuchJob);
    }
    let bytes = turning::of_job(maps, job);
    let Some(judged) = judging::judge(nodes, bytes) else {
        return Err(Refusal::BadMap);
    };
    let map = NodeMap {
        bytes,
        len: judged.len,
    };
    install_mapped(nodes, jobs, map, job, policy)
}

// Rebind on tables that are in order.
pub fn rebind_at(nodes: usize, jobs: &mut [u64], job: usize, allowed: u64) -> Answer
    requires { record_tables_ok nodes (length jobs.old) ≡ true }
    ensures { (t : Tables) → outcome (answer_of result) (with_records t jobs.new) ≡ on_rebind nodes (with_records t jobs.old) job allowed }
{
    if !table::has_job(jobs.len(), job) {
        return Err(Refusal::NoSuchJob);
    }
    let old = table::load(jobs, job);
    if !old.well_formed(nodes) {
        return Err(Refusal::MalformedRecord);
    }
    let new = Mask(allowed);
    if !new.below(nodes) {
        return Err(Refusal::DoesNotFit);
    }
    if new.is_empty() {
        return Err(Refusal::NothingAllowed);
    }
    let next = old.job().rebound(new).as_record();
    if next.effective.is_empty() & (next.flag != 1) & !next.user.is_empty() {
        return Err(Refusal::NothingEffective);
    }
    table::store(jobs, job, next);
    Ok(Effect::Done)
}

// Clear on tables that are in order.
pub fn clear_at(nodes: usize, jobs: &mut [u64], job: usize) -> Answer
    requires { record_tables_ok nodes (length jobs.old) ≡ true }
    ensures { (t : Tables) → outcome (answer_of result) (with_records t jobs.new) ≡ on_clear nodes (with_records t jobs.old) job }
{
    if !table::has_job(jobs.len(), job) {
        return Err(Refusal::NoSuchJob);
    }
    table::store(jobs, job, Job::fresh().as_record());
    Ok(Effect::Done)
}

// Install: a job's mode, flag, user mask or places, in the numbers of its map.
pub fn install(
    nodes: usize,
    jobs: &mut [u64],
    maps: &[u8],
    job: usize,
    mode: u64,
    flag: u64,
    mask: u64,
    places: &[u8],
) -> Answer
    ensures { (t : Tables) → outcome (answer_of result) (with_jobs t jobs.new maps.now) ≡ on_install nodes (with_jobs t jobs.old maps.now) job (policy mode flag mask places.now) }
{
    if !table::mapped_ok(nodes, jobs.len(), maps.len()) {
        return Err(Refusal::BadTables);
    }
    let policy = AppPolicy {
        mode,
        flag,
        user: mask,
        len: places.len(),
        places: words::padded(places),
    };
    install_at(nodes, jobs, maps, job, policy)
}

// Rebind: a job's allowed nodes.
pub fn rebind(nodes: usize, jobs: &mut [u64], job: usize, allowed: u64) -> Answer
    ensures { (t : Tables) → outcome (answer_of result) (with_records t jobs.new) ≡ on_rebind nodes (with_records t jobs.old) job allowed }
{
    if !table::tables_ok(nodes, jobs.len()) {
        return Err(Refusal::BadTables);
    }
    rebind_at(nodes, jobs, job, allowed)
}

// Clear: a job's record becomes fresh; held pages stay held.
pub fn clear(nodes: usize, jobs: &mut [u64], job: usize) -> Answer
    ensures { (t : Tables) → outcome (answer_of result) (with_records t jobs.new) ≡ on_clear nodes (with_records t jobs.old) job }
{
    if !table::tables_ok(nodes, jobs.len()) {
        return Err(Refusal::BadTables);
    }
    clear_at(nodes, jobs, job)
}
