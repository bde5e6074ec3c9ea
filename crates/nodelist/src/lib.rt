// Node-list text: document 01, "Node-list text".

#![tactic(auto)]

ghost use Rattle.std.specs.Prelude.{◌≡◌};
ghost use Rattle.rules.specs.Text.{read_text, write_text};
ghost use Rattle.rules.specs.Answers.{decision_of};
ghost use Rattle.rules.specs.Decisions.{wrote};

mod forms;
mod reader;
mod writer;

use nodemask::Mask;
use rules::Refusal;

// The mask of the nodes that a text names, `nodes` being N and `allowed` the allowed set.
pub fn read_nodes(nodes: usize, allowed: u64, text: &[u8]) -> Result<u64, Refusal>
    ensures { decision_of result ≡ read_text nodes allowed text.now }
{
    let limit = Mask(allowed);
    if !nodemask::nodes_ok(nodes) {
        return Err(Refusal::BadTables);
    }
    if !limit.below(nodes) {
        return Err(Refusal::DoesNotFit);
    }
    if text.len() > 255 {
        return Err(Refusal::BadText);
    }
    match forms::read_form(nodes, limit, text) {
        Some(named) => Ok(named.0),
        None => Err(Refusal::BadText),
    }
}

// The text of a mask, `nodes` being N, put at the start of the output: its length.
pub fn write_nodes(nodes: usize, mask: u64, out: &mut [u8]) -> Result<u64, Refusal>
    ensures { wrote (decision_of result) out.new ≡ write_text nodes mask out.old }
{
    let set = Mask(mask);
    if !nodemask::nodes_ok(nodes) {
        return Err(Refusal::BadTables);
    }
    if !set.below(nodes) {
        return Err(Refusal::DoesNotFit);
    }
    writer::write_text(set, out)
}
