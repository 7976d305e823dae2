// What the entries do is what the definitions say.
ghost use Rattle.exploration.specs.Turns.{AnswersAsDefined};

// What the row's entries do with an answer is what the definition of the dialogue does.
pub fn answers_as_defined()
    ensures { AnswersAsDefined }
{}
