// What an exploration promises. Each promise is the contract of a function that does nothing else.
#![tactic(auto)]

ghost use Rattle.dialogues.specs.Promise.{MainPromise, SameImplications, TruthIsTaken, NothingSettledIsAsked, NeverGoesBack, FewOfEach, AnswersBounded, CanBeFinished, AlwaysRoom, NoneIsSpare};
ghost use Rattle.dialogues.specs.Worked.{WorkedDialogue};

// Once nothing is asked, what is confirmed is least for the yard, and the examples tell what holds there.
pub fn main_promise()
    ensures { MainPromise }
{}

// Two finished dialogues about one yard confirm the same implications in the same order.
pub fn same_implications()
    ensures { SameImplications }
{}

// After truthful answers all that is known is true of the yard, and a true answer is taken.
pub fn truth_is_taken()
    ensures { TruthIsTaken }
{}

// What is asked may hold or not, as far as the answers tell.
pub fn nothing_settled_is_asked()
    ensures { NothingSettledIsAsked }
{}

// The premises that are asked about never go back in lectic order.
pub fn never_goes_back()
    ensures { NeverGoesBack }
{}

// At most 2^n implications are confirmed and 2^n examples named, and no example twice.
pub fn few_of_each()
    ensures { FewOfEach }
{}

// A truthful dialogue has at most 2 * 2^n answers.
pub fn answers_bounded()
    ensures { AnswersBounded }
{}

// Every truthful dialogue can be led to its end.
pub fn can_be_finished()
    ensures { CanBeFinished }
{}

// With at most 12 attributes there is room for 4,096 of each kind before an answer is taken.
pub fn always_room()
    ensures { AlwaysRoom }
{}

// No confirmed implication follows from the others.
pub fn none_is_spare()
    ensures { NoneIsSpare }
{}

// The worked dialogue, row by row, as the definitions have it.
pub fn worked_dialogue()
    ensures { WorkedDialogue }
{}
