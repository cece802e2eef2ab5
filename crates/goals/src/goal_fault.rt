// Why a goal text is refused, with the place of the token at fault.
#[derive(Clone, Copy, PartialEq, Eq, Debug)]
pub enum GoalFault {
    TooLong,
    Follow(usize),
    Unknown(usize),
    Range(usize),
    Limit(usize),
}
