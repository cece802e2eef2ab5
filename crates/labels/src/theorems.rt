ghost use Rattle.labels.specs.Claims.{TruthIsTwoValued, SimplifyingKeepsMeaning, Progression, IdlingIsTruthOnCopies, EndsStayInOrder, LabelsStayKnown, LabelStandsForGoal, RunsAreTimed, IdlingJudgesTheModel};
ghost use Rattle.labels.specs.Examples.{WorkedExamples};
ghost use Rattle.labels.specs.TableClaims.{SameMeansEqual, UniqueListsCount, LabelsStandOnce, TablesTellSize, WorkGoesByParts, GrowthTellsSize, GrowthTellsWork};

// What is not untrue at a state is true there, of a goal node and of a label.
pub fn truth_is_two_valued()
    ensures { TruthIsTwoValued }
{}

// The simplified "not", "and" and "or" of labels are true just where the plain ones are.
pub fn simplifying_keeps_meaning()
    ensures { SimplifyingKeepsMeaning }
{}

// A label is true at a state exactly when its progress is true at the next one.
pub fn progression_holds()
    ensures { Progression }
{}

// Idling keeps a label exactly when endless copies of the facts, one hour apart, do.
pub fn idling_is_truth_on_copies()
    ensures { IdlingIsTruthOnCopies }
{}

// An opening label has its ends in order, and progress keeps them so.
pub fn ends_stay_in_order()
    ensures { EndsStayInOrder }
{}

// A job knows its opening label, and the progress of every label that it knows.
pub fn labels_stay_known()
    ensures { LabelsStayKnown }
{}

// After any steps the label stands for the goal over the states passed.
pub fn label_stands_for_goal()
    ensures { LabelStandsForGoal }
{}

// The states passed, with a timed sequence behind them, are a timed sequence.
pub fn runs_are_timed()
    ensures { RunsAreTimed }
{}

// Idling after any steps judges the run with copies of its last state behind it.
pub fn idling_judges_the_model()
    ensures { IdlingJudgesTheModel }
{}

// The worked schedules, windows and untils come out as the definitions say.
pub fn worked_examples_hold()
    ensures { WorkedExamples }
{}

// The test for the same label says just whether they are equal.
pub fn same_means_equal()
    ensures { SameMeansEqual }
{}

// A list without repetition counts the distinct labels of what it lists.
pub fn unique_lists_count()
    ensures { UniqueListsCount }
{}

// Equal labels stand at one place of a table whose parts stand behind their own, none twice.
pub fn labels_stand_once()
    ensures { LabelsStandOnce }
{}

// Such a table is as long as its label is large, if it has no other parts.
pub fn tables_tell_size()
    ensures { TablesTellSize }
{}

// The work of a step depends only on the set of the label's parts.
pub fn work_goes_by_parts()
    ensures { WorkGoesByParts }
{}

// A table grown from nothing by one label is as long as that label is large.
pub fn growth_tells_size()
    ensures { GrowthTellsSize }
{}

// A table grown from nothing by the results for each part of a label is as long as the work is large.
pub fn growth_tells_work()
    ensures { GrowthTellsWork }
{}
