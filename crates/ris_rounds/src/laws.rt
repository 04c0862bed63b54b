ghost use Rattle.ris_rounds.specs.Laws.{AnswersKeep, AwaitsAreTaken, EndsAreLegal, FrontsAreBatches, OutcomesFit, QuestionsFit, StartsArePlayed, SubmitsKeep, TurnsKeep};

/// A run in which nothing has happened is a run of the core machine.
pub fn start_law()
    ensures { StartsArePlayed }
{}

/// And so is a run where a session submits its next request.
pub fn submit_law()
    ensures { SubmitsKeep }
{}

/// And one where a session gets a right answer to its next question.
pub fn answer_law()
    ensures { AnswersKeep }
{}

/// The next question of a session asks for an analysis that exists, and a right answer to it is none that is shut out.
pub fn question_law()
    ensures { QuestionsFit }
{}

/// The oldest requests of the sessions are a batch, in which no session has two; its sessions exist; and its requests and
/// the lines so far are no more than the commands.
pub fn batch_law()
    ensures { FrontsAreBatches }
{}

/// A session that awaits a reply has a request in that batch.
pub fn await_law()
    ensures { AwaitsAreTaken }
{}

/// A run stays one of the core machine where a turn takes such a batch and each session is told its outcome.
pub fn turn_law()
    ensures { TurnsKeep }
{}

/// Each outcome of a turn is the reply to the oldest open request of its session, one after another.
pub fn fit_law()
    ensures { OutcomesFit }
{}

/// At the end the replies and the lines are legal, and each command has one reply.
pub fn end_law()
    ensures { EndsAreLegal }
{}
