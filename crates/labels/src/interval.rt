ghost use Rattle.std.specs.Prelude.{◌≡◌};
ghost use Rattle.labels.specs.Goals.{node_ends};
ghost use Rattle.labels.specs.Progress.{less, passed, later};

use goals::goal::{Ends, Node};
use goals::time::Span;

// A node's own ends, 0 unless it is an until, as the definition of a pending part has them.
pub fn own_ends(node: &Node) -> Ends
    ensures { result ≡ node_ends node.now }
{
    match *node {
        Node::Until(ends, _, _) => ends,
        _ => Ends {
            lower: Span { hours: 0 },
            upper: Some(Span { hours: 0 }),
        },
    }
}

// Is the upper end below the span?
pub fn is_passed(span: Span, upper: Option<Span>) -> bool
    ensures { result ≡ passed span.hours upper }
{
    upper.is_some_and(|end| end.hours < span.hours)
}

// An end as it stands a span later.
fn end_after(span: Span, end: Span) -> Span
    ensures { result ≡ less span.hours end }
{
    Span {
        hours: end.hours.saturating_sub(span.hours),
    }
}

// The ends as they stand a span later.
pub fn ends_after(span: Span, ends: Ends) -> Ends
    ensures { result ≡ later span.hours ends }
{
    Ends {
        lower: end_after(span, ends.lower),
        upper: ends.upper.map(|end| end_after(span, end)),
    }
}
