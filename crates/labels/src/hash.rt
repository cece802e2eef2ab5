ghost use Rattle.std.specs.Prelude.{◌≡◌, ◌<◌};
ghost use Rattle.labels.specs.Chains.{end_number, bucket};

use crate::part::Part;
use goals::time::Span;

// How many buckets a table has. The hash is our own and not a `HashMap`'s, whose insert asks for memory, which a step may not.
pub const BUCKETS: usize = 1024;

fn end_number(upper: Option<Span>) -> usize
    ensures value { result ≡ end_number upper }
    ensures bound { result < 65536 }
{
    upper.map_or(10001, |span| span.hours as usize)
}

// The bucket of a part.
#[tactic(auto, unfolding(crate::specs::Chains::bucket))]
pub fn hash(part: Part) -> usize
    ensures value { result ≡ bucket part }
    ensures bound { result < 1024 }
{
    match part {
        Part::True => 0,
        Part::False => 1,
        Part::Pending {
            node,
            binding,
            ends,
        } => {
            let outer = binding.outer as usize;
            let inner = binding.inner as usize;
            let lower = ends.lower.hours as usize;
            (node % 1024 * 7 + outer * 31 + inner * 57 + lower * 3 + end_number(ends.upper))
                % BUCKETS
        }
        Part::Not(x) => (x % 4096 * 3 + 2) % BUCKETS,
        Part::And(x, y) => (x % 4096 * 37 + y % 4096 * 102 + 3) % BUCKETS,
        Part::Or(x, y) => (x % 4096 * 41 + y % 4096 * 94 + 4) % BUCKETS,
    }
}
