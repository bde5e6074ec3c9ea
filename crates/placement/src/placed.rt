// What a request or a release comes to in the machine's own numbers, and what the job is told of it (request M-103).

ghost use Rattle.std.specs.Prelude.{◌≡◌, length};
ghost use Rattle.rules.specs.Answers.{answer_of};
ghost use Rattle.rules.specs.Maps.{map_bytes, nodes_in};
ghost use Rattle.placement.specs.Placed.{placed_as, HasMap};

use maps::turning;
use rules::{Answer, Effect, Page, Refusal, SysNode};

// A page that is granted or released, with its node.
#[derive(Clone, Copy)]
pub enum Placed {
    Granted(SysNode, Page),
    Released(SysNode, Page),
}

// "answers back": the node by its number in the job's map.
pub fn tell(maps: &[u8], job: usize, placed: Result<Placed, Refusal>) -> Answer
    requires { HasMap (length maps.now) job placed }
    ensures { answer_of result ≡ placed_as (nodes_in (map_bytes maps.now job)) placed }
{
    match placed? {
        Placed::Granted(node, page) => {
            let bytes = turning::of_job(maps, job);
            Ok(Effect::Granted(turning::named(bytes, node), page))
        }
        Placed::Released(node, page) => {
            let bytes = turning::of_job(maps, job);
            Ok(Effect::Released(turning::named(bytes, node), page))
        }
    }
}
