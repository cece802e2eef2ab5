// A time of day is counted in whole hours from the opening; a span is what lies between two hours.
#[derive(Clone, Copy, PartialEq, Eq, PartialOrd, Ord, Debug)]
pub struct Hour {
    pub hours: u32,
}

// So many hours between two hours; the ends of an interval are spans.
#[derive(Clone, Copy, PartialEq, Eq, PartialOrd, Ord, Debug)]
pub struct Span {
    pub hours: u16,
}
