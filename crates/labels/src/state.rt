// Whether a label is settled, and how.
#[derive(Clone, Copy, PartialEq, Eq, Debug)]
pub enum LabelState {
    True,
    False,
    Open,
}
