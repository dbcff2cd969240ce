//! What `demo` makes of its input.

ghost use Rattle.std.specs.Prelude.{◌≡◌, ◌≤◌, ℕ, length, IfOk, Some};
ghost use Rattle.rs_runs.specs.Demos as spec;
ghost use Rattle.rs_runs.specs.DemoSessions.{GivesDemo};
ghost use Rattle.rs_runs.specs.Ready.{Warrants};
ghost use Rattle.rs_model.specs.declared.limits.TheConstants.{MOST_BYTES};
ghost use Rattle.rs_model.specs.declared.runs.Workers.TheVariants.{One, Several};

use crate::answers::AnswerWithSession;
use crate::limits::DEMO_LIMIT;
use crate::ready::{Prepared, Ready};
use crate::runs::{capacity_for, stopped_answer};
use rs_answers::Piece::Words;
use rs_answers::{AcceptedDocument, Answer, Verdict, accept_document, line_of_answer, too_small};
use rs_core::{Outcome, Run};
use rs_demos::{DemoActor, DemoFault, demo_actors, demo_session_document, into_demo_output};
use rs_exec::Ran;
use rs_model::{Bound, Capacity, Demo, Names, NoMemory};
use std::alloc::Global;

/// The bytes aren't the numbers that the demo asks for.
fn bad_numbers(alloc: Global) -> Result<Answer, NoMemory>
    ensures { IfOk result (λ a. a ≡ spec.bad_numbers) }
{
    line_of_answer(
        alloc,
        b"malformed ",
        &[Words(b"numbers")],
        Verdict::Malformed,
    )
}

/// All roles have ended: what is printed of their actors.
fn demo_ended_answer(alloc: Global, kind: Demo, actors: Vec<DemoActor>) -> Result<Answer, NoMemory>
    ensures { IfOk result (λ a. a ≡ spec.demo_ended_answer kind actors.items) }
{
    Ok(Answer {
        text: into_demo_output(alloc, kind, actors)?,
        verdict: Verdict::Fine,
    })
}

/// What the run came to, with the actors that it left.
fn demo_outcome_answer(
    alloc: Global,
    kind: Demo,
    names: &Names,
    outcome: Outcome,
    left: Vec<DemoActor>,
) -> Result<Answer, NoMemory>
    ensures { IfOk result (λ a. a ≡ spec.demo_outcome_answer kind names.now outcome left.items) }
{
    match outcome {
        Outcome::Ended(_) => demo_ended_answer(alloc, kind, left),
        Outcome::Stopped(role) => stopped_answer(alloc, names, role),
    }
}

/// What a run left is told, with the session that it went through.
pub(crate) fn finish_demo(
    alloc: Global,
    kind: Demo,
    names: &Names,
    ran: Ran<DemoActor>,
) -> Result<AnswerWithSession, NoMemory>
    ensures answer { IfOk result (λ a. a.answer ≡ spec.demo_outcome_answer kind names.now ran.run.outcome ran.run.actors.items) }
    ensures closed { IfOk result (λ a. a.closed ≡ Some ran.closed) }
{
    let Ran { run, closed } = ran;
    let Run { outcome, actors } = run;
    Ok(AnswerWithSession {
        answer: demo_outcome_answer(alloc, kind, names, outcome, actors)?,
        closed: Some(closed),
    })
}

/// What the demo makes of the bytes of the input: that they aren't the numbers that it asks for; or what comes of its own
/// document, which goes the way of any other: the first reason to refuse it, or that the rings hold fewer messages than the
/// room of its session, or the session, ready to be run. Several workers may run it where the bytes are within the limit of
/// a text, so that no role is stopped.
pub fn ready_demo(
    alloc: Global,
    kind: Demo,
    ring: Option<Capacity>,
    bytes: &[u8],
) -> Result<Prepared, NoMemory>
    ensures alone { IfOk result (λ p. Warrants One p (GivesDemo kind ring bytes.now)) }
    ensures crew { length bytes.now ≤ MOST_BYTES → IfOk result (λ p. (crew : ℕ) → Warrants (Several crew) p (GivesDemo kind ring bytes.now)) }
{
    let actors = match demo_actors(alloc, kind, bytes) {
        Ok(actors) => actors,
        Err(DemoFault::BadNumbers) => return Prepared::answered(bad_numbers(alloc)),
        Err(DemoFault::NoMemory) => return Err(NoMemory),
    };
    let document = demo_session_document(alloc, kind, actors.len() as u8)?;
    let AcceptedDocument { names, session } = match accept_document(
        alloc,
        document,
        Bound::standard(),
    ) {
        Ok(accepted) => accepted,
        Err(refused) => return Prepared::answered(refused.answer(alloc)),
    };
    let room = session.room();
    match capacity_for(ring, room) {
        Ok(capacity) => Ok(Prepared::Demo(
            kind,
            Ready {
                names,
                session,
                actors,
                capacity,
                limit: DEMO_LIMIT,
            },
        )),
        Err(capacity) => Prepared::answered(too_small(alloc, capacity.messages(), room)),
    }
}
