//! Sessions that are ready to be run, and what comes of a task before one is.

ghost use Rattle.std.specs.Prelude.{◌≡◌, IfOk, Ok};
ghost use Rattle.rs_answers.specs.Data.{Answer_data};

use rs_answers::Answer;
use rs_core::SeededActor;
use rs_demos::DemoActor;
use rs_model::{Capacity, Demo, Names, NoMemory};
use rs_safety::Accepted;

/// A session that is ready to be run.
#[derive(Drop)]
pub struct Ready<A: Drop> {
    /// The names in its document.
    pub names: Names,
    /// The session.
    pub session: Accepted,
    /// An actor for each role, in role order.
    pub actors: Vec<A>,
    /// How many messages each ring holds.
    pub capacity: Capacity,
    /// How many acts a role makes, at most, before the run is stopped.
    pub limit: u32,
}

/// What comes of a task before a session is run.
#[derive(Drop)]
pub enum Prepared {
    /// There is nothing to run: the answer.
    Answered(Answer),
    /// The session of a document, by actors that draw what they send.
    Run(Ready<SeededActor>),
    /// The session of a demo, by its actors.
    Demo(Demo, Ready<DemoActor>),
}

impl Prepared {
    /// There is nothing to run: the answer, if it was made.
    pub fn answered(answer: Result<Answer, NoMemory>) -> Result<Prepared, NoMemory>
        ensures { IfOk result (λ p. (a : Answer_data) × (answer ≡ Ok a) × (p ≡ Prepared.Answered a)) }
    {
        Ok(Prepared::Answered(answer?))
    }
}
