ghost use Rattle.std.specs.Prelude.{◌≡◌};

use goals::fill_fault::FillFault;
use sessions::refusal::{LookRefusal, StepRefusal};
use sessions::verdict::{Judgement, Verdict};

// What was refused: the file, a step, or a look.
#[derive(Clone, Copy, PartialEq, Eq, Debug)]
pub enum ReportRefusal {
    File(FillFault),
    Step(StepRefusal),
    Look(LookRefusal),
}

impl ReportRefusal {
    ghost use Rattle.reports.specs.Refusals.{refusal_number};

    // By a match: the variants hold what was refused.
    pub fn number(self) -> u8
        ensures { result ≡ refusal_number self }
    {
        match self {
            ReportRefusal::File(fault) => fault.number(),
            ReportRefusal::Step(refusal) => refusal.number(),
            ReportRefusal::Look(refusal) => refusal.number(),
        }
    }
}

impl From<FillFault> for ReportRefusal {
    ghost use Rattle.reports.specs.declared.ending.ReportRefusal.TheVariants.{File};

    ghost from_gives = { λ x y. y ≡ File x };

    fn from(fault: FillFault) -> ReportRefusal {
        ReportRefusal::File(fault)
    }
}

impl From<StepRefusal> for ReportRefusal {
    ghost use Rattle.reports.specs.declared.ending.ReportRefusal.TheVariants.{Step};

    ghost from_gives = { λ x y. y ≡ Step x };

    fn from(refusal: StepRefusal) -> ReportRefusal {
        ReportRefusal::Step(refusal)
    }
}

impl From<LookRefusal> for ReportRefusal {
    ghost use Rattle.reports.specs.declared.ending.ReportRefusal.TheVariants.{Look};

    ghost from_gives = { λ x y. y ≡ Look x };

    fn from(refusal: LookRefusal) -> ReportRefusal {
        ReportRefusal::Look(refusal)
    }
}

// How a report ends: with the verdict, with the first step whose label is FALSE, or with a refusal.
#[derive(Clone, Copy, PartialEq, Eq, Debug)]
pub enum Ending {
    Kept,
    NotKept,
    Broken(u16),
    Refused(ReportRefusal),
}

// A broken step is named whatever the judgement; where the job does not know the label, that is told as a look tells it.
impl From<&Verdict> for Ending {
    ghost use Rattle.reports.specs.Lines.{verdict_ending};

    ghost from_gives = { λ v e. e ≡ verdict_ending v.now.broken v.now.judgement };

    fn from(verdict: &Verdict) -> Ending {
        match (verdict.broken, verdict.judgement) {
            (Some(step), _) => Ending::Broken(step),
            (None, Judgement::Kept) => Ending::Kept,
            (None, Judgement::NotKept) => Ending::NotKept,
            (None, Judgement::OtherJob) => Ending::Refused(ReportRefusal::Look(
                LookRefusal::OtherJob,
            )),
        }
    }
}
