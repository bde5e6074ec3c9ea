// A grant by the node that a search has chosen: M-105's page of that node.

ghost use Rattle.std.specs.Prelude.{true, List, ◌≡◌, ℕ, ◌+◌, ◌<◌, ◌≤◌, length, get_or};
ghost use Rattle.std.proofs.Math.Option.{some};
ghost use Rattle.rules.specs.Masks.{most_nodes};
ghost use Rattle.rules.specs.SearchOrder.{try};
ghost use Rattle.rules.specs.Calls.{tables_of, outcome, applied, map_of, is_job, serve};
ghost use Rattle.pages.specs.FirstZero.{mark};
ghost use Rattle.records.specs.Jobs.{turn_of};
ghost use Rattle.placement.specs.Grants.{page_by, page_for, Ready, Searched, Chose};
ghost use Rattle.placement.specs.Hints.{Hints};
ghost use Rattle.placement.specs.Placed.{placed_as, InNode};

use super::hinting;
use super::placed::Placed;
use machine::layout::Layout;
use pages;
use records::table;
use rules::{Page, Refusal, SysNode};

// The part of a node's pages that is searched for a job: from a page before which all are held, to the node's end; how far from its start all
// pages of the job's colour are held; and that colour, counted from its start.
#[derive(Clone, Copy)]
struct Part {
    low: Page,
    end: Page,
    ahead: usize,
    colour: usize,
}

fn part_of(layout: Layout, hints: &[u32], node: SysNode, job: u8) -> Part
    requires { (node.0 < most_nodes) × (get_or layout.starts.now node.0 0 ≤ get_or layout.starts.now (node.0 + 1) 0) }
    ensures { Searched layout.entry.starts.now hints.now job node.0 result }
{
    let n = node.0 as usize;
    let first = Page(layout.starts[n]);
    let end = Page(layout.starts[n + 1]);
    let own = (job % 4) as usize;
    let low = hinting::search_from(
        hints,
        hinting::hint_at(node, hinting::ALL_PAGES),
        first,
        end,
    );
    let from = hinting::search_from(hints, hinting::hint_at(node, own), low, end);
    Part {
        low,
        end,
        ahead: (from.0 - low.0) as usize,
        colour: (own + 3 * ((low.0 - first.0) as usize)) % 4,
    }
}

// Marks the page of a node that a job gets, if the node has a free one: the node's part of the page table, from its hint on, lent on to the
// page picker.
pub fn mark_page(
    layout: Layout,
    hints: &[u32],
    pages: &mut [u8],
    node: SysNode,
    job: u8,
) -> Option<Page>
    requires { Ready layout.counts.now layout.starts.now pages.old job × (node.0 < length layout.counts.now) × Hints layout.counts.now pages.old hints.now }
    ensures answer { page_by result ≡ page_for layout.entry.counts.now pages.old job node.0 }
    ensures table { pages.new ≡ mark pages.old (page_by result) (job + 1) }
{
    let part = part_of(layout, hints, node, job);
    let start = part.low.0 as usize;
    let end = part.end.0 as usize;
    let offset = pages::pick(&mut pages[start..end], part.ahead, part.colour, job + 1)?;
    Some(offset.after(part.low))
}

// Grants by the chosen node: the page is marked, the cursor stored and the count taken down by one. 14 where it has no free page.
pub fn grant_node(
    layout: Layout,
    hints: &[u32],
    pages: &mut [u8],
    jobs: &mut [u64],
    free: &mut [u32],
    job: usize,
    node: SysNode,
    cursor: u8,
) -> Result<Placed, Refusal>
    requires { Ready layout.counts.now layout.starts.now pages.old job × (is_job jobs.old job ≡ true) × Chose layout.counts.now free.old node.0 × Hints layout.counts.now pages.old hints.now }
    ensures did { let l = layout.entry in (maps : List ℕ) → outcome (placed_as (map_of (tables_of pages.old jobs.old free.old maps) job) result) (tables_of pages.new jobs.new free.new maps) ≡ applied (tables_of pages.old jobs.old free.old maps) (serve l.counts.now (tables_of pages.old jobs.old free.old maps) job (some (try (turn_of cursor) node.0))) }
    ensures found { InNode layout.entry.counts.now result }
{
    let marked = mark_page(layout, hints, pages, node, job as u8);
    let page = marked.ok_or(Refusal::WrongCount)?;
    let n = node.0 as usize;
    free[n] = free[n] - 1;
    table::store_cursor(jobs, job, cursor);
    Ok(Placed::Granted(node, page))
}
