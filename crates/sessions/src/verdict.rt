// What closing tells of the model of the steps taken: three words of a report, of which none is an error of the closing.
#[derive(Clone, Copy, PartialEq, Eq, Debug)]
pub enum Judgement {
    Kept,
    NotKept,
    // The label is not one that the job knows.
    OtherJob,
}

// What is left of a session that was closed, with the first step whose label was FALSE. It moves, as the session did.
#[derive(Drop, PartialEq, Eq, Debug)]
pub struct Verdict {
    pub judgement: Judgement,
    pub broken: Option<u16>,
}
