ghost use Rattle.sessions.specs.Checks.{StepsAreAccepted, FirstNeedIsNamed};
ghost use Rattle.sessions.specs.Laws.{RunsKeepTheLaw, CuttingChangesNothing};

use labels::theorems::{
    idling_judges_the_model, label_stands_for_goal, labels_stay_known, runs_are_timed,
};

// However a session's calls are cut, each is answered as the table of refusals says, the label is the ledger's and stands for
// the goal, and the verdict judges the model.
pub fn runs_keep_the_law()
    ensures { RunsKeepTheLaw }
{
    label_stands_for_goal();
    runs_are_timed();
    idling_judges_the_model();
    labels_stay_known();
}

// Pieces that each begin with what stands there give what the calls in one list give.
pub fn cutting_changes_nothing()
    ensures { CuttingChangesNothing }
{}

// A step is accepted exactly where no number of the table of refusals names it.
pub fn steps_are_accepted()
    ensures { StepsAreAccepted }
{}

// A step that is refused for a need names the first that does not hold.
pub fn first_need_is_named()
    ensures { FirstNeedIsNamed }
{}
