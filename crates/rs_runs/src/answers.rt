//! Answers beside the session that was run for them.

ghost use Rattle.std.specs.Prelude.{◌≡◌, IfOk, None, Ok};

use rs_answers::Answer;
use rs_model::NoMemory;
use rs_rings::Closed;

/// An answer, and the session over rings that was run for it, closed or given up, where there was one.
#[derive(Drop)]
pub struct AnswerWithSession {
    pub answer: Answer,
    pub closed: Option<Closed>,
}

impl AnswerWithSession {
    /// An answer for which there was no session, if it was made.
    pub fn alone(answer: Result<Answer, NoMemory>) -> Result<AnswerWithSession, NoMemory>
        ensures { IfOk result (λ a. (answer ≡ Ok a.answer) × (a.closed ≡ None)) }
    {
        match answer {
            Ok(answer) => Ok(AnswerWithSession {
                answer,
                closed: None,
            }),
            Err(refused) => Err(refused),
        }
    }
}
