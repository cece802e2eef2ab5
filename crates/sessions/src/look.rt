use goals::time::Hour;
use labels::state::LabelState;

// What a look tells.
#[derive(Clone, Copy, PartialEq, Eq, Debug)]
pub struct Look {
    // How many steps were taken.
    pub number: u16,
    pub hour: Hour,
    // How many distinct parts the label has.
    pub size: usize,
    pub truth: LabelState,
    // Does idling now keep the label?
    pub idles: bool,
    // The first step whose label is FALSE.
    pub broken: Option<u16>,
}
