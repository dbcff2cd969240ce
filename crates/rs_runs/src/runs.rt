//! What `run` answers to a document.

ghost use Rattle.std.specs.Prelude.{◌≡◌, ◌<◌, ◌≤◌, ℕ, length, IfErr, IfOk, OnErr, Some};
ghost use Rattle.rs_runs.specs.Ready.{Warrants};
ghost use Rattle.rs_runs.specs.Runs as spec;
ghost use Rattle.rs_runs.specs.RunSessions.{GivesRun};
ghost use Rattle.rs_core.specs.Runs.{IsGiven};
ghost use Rattle.rs_documents.specs.Ready.{DocumentIsReady};

use crate::answers::AnswerWithSession;
use crate::ready::{Prepared, Ready};
use crate::transcript_texts::push_transcripts;
use rs_answers::Piece::{Number, Words};
use rs_answers::{
    AcceptedDocument, Answer, Verdict, accept_document, line_of_answer, role_name, too_small,
};
use rs_core::{Outcome, Run, SeededActor, Transcripts};
use rs_documents::Document;
use rs_exec::Ran;
use rs_model::{Capacity, Names, NoMemory, Role, RunOptions, Workers};
use rs_text::Text;
use std::alloc::Global;

/// An actor for each of so many roles.
fn actors_of(alloc: Global, roles: usize, seed: u32) -> Result<Vec<SeededActor>, NoMemory>
    requires { roles ≤ 16 }
    ensures many { IfOk result (λ actors. length actors.items ≡ roles) }
    ensures each { IfOk result (λ actors. IsGiven (spec.actor_of seed) actors.items) }
{
    let mut actors = Vec::new(alloc);
    for role in 0..roles {
        actors.push(SeededActor::new(seed, Role(role as u8)))?;
    }
    Ok(actors)
}

/// How many messages each queue holds: as many as are asked for, or else the room, or the most where that is greater.
fn capacity_of(ring: Option<Capacity>, room: u64) -> Capacity
    requires { 1 ≤ room }
    ensures { result ≡ spec.capacity_of ring room }
{
    match ring {
        Some(ring) => ring,
        None => Capacity::at_most(room),
    }
}

/// All roles have ended: what each did.
fn ended_answer(alloc: Global, names: &Names, transcripts: &Transcripts) -> Result<Answer, NoMemory>
    ensures { IfOk result (λ a. a ≡ spec.ended_answer names.now transcripts.now) }
{
    let mut text = Text::new(alloc);
    text.push(b"ended\n")?;
    push_transcripts(
        alloc,
        &mut text,
        names,
        names.roles.as_slice(),
        transcripts.as_slice(),
    )?;
    Ok(Answer {
        text,
        verdict: Verdict::Fine,
    })
}

/// The role has made as many acts as the limit allows, and hasn't ended.
pub fn stopped_answer(alloc: Global, names: &Names, role: Role) -> Result<Answer, NoMemory>
    ensures { IfOk result (λ a. a ≡ spec.stopped_answer names.now role) }
{
    line_of_answer(
        alloc,
        b"stopped ",
        &[Words(role_name(names, role))],
        Verdict::Stopped,
    )
}

/// What the run came to.
pub fn outcome_answer(alloc: Global, names: &Names, outcome: Outcome) -> Result<Answer, NoMemory>
    ensures { IfOk result (λ a. a ≡ spec.outcome_answer names.now outcome) }
{
    match outcome {
        Outcome::Ended(transcripts) => ended_answer(alloc, names, &transcripts),
        Outcome::Stopped(role) => stopped_answer(alloc, names, role),
    }
}

/// No role can move: the sender's queue to the receiver is full.
pub(crate) fn full_answer(
    alloc: Global,
    names: &Names,
    sender: Role,
    receiver: Role,
    sent: u64,
    taken: u64,
) -> Result<Answer, NoMemory>
    ensures { IfOk result (λ a. a ≡ spec.full_answer names.now sender receiver sent taken) }
{
    line_of_answer(
        alloc,
        b"full ",
        &[
            Words(role_name(names, sender)),
            Words(b"->"),
            Words(role_name(names, receiver)),
            Words(b" sent "),
            Number(sent),
            Words(b" taken "),
            Number(taken),
        ],
        Verdict::Full,
    )
}

/// What a run left is told, with the session that it went through.
pub(crate) fn finish_run(
    alloc: Global,
    names: &Names,
    ran: Ran<SeededActor>,
) -> Result<AnswerWithSession, NoMemory>
    ensures answer { IfOk result (λ a. a.answer ≡ spec.outcome_answer names.now ran.run.outcome) }
    ensures closed { IfOk result (λ a. a.closed ≡ Some ran.closed) }
{
    let Ran { run, closed } = ran;
    let Run { outcome, .. } = run;
    Ok(AnswerWithSession {
        answer: outcome_answer(alloc, names, outcome)?,
        closed: Some(closed),
    })
}

/// How many messages each ring holds; as the error where that is fewer than the room.
pub(crate) fn capacity_for(ring: Option<Capacity>, room: u64) -> Result<Capacity, Capacity>
    requires { 1 ≤ room }
    ensures ok { IfOk result (λ capacity. (capacity ≡ spec.capacity_of ring room) × (room ≤ capacity)) }
    ensures err { IfErr result (λ capacity. (capacity ≡ spec.capacity_of ring room) × (capacity < room)) }
{
    let capacity = capacity_of(ring, room);
    if u64::from(capacity.messages()) < room {
        Err(capacity)
    } else {
        Ok(capacity)
    }
}

/// How many messages each ring holds; as the error where that is fewer than the room, and several workers are to run the
/// session.
fn capacity_by(workers: Workers, ring: Option<Capacity>, room: u64) -> Result<Capacity, Capacity>
    requires { 1 ≤ room }
    ensures ok { IfOk result (λ capacity. (capacity ≡ spec.capacity_of ring room) × ((crew : ℕ) → workers ≡ Workers.Several crew → room ≤ capacity)) }
    ensures err { IfErr result (λ capacity. (capacity ≡ spec.capacity_of ring room) × (capacity < room)) }
    ensures several { OnErr result ((crew : ℕ) × (workers ≡ Workers.Several crew)) }
{
    match workers {
        Workers::One => Ok(capacity_of(ring, room)),
        Workers::Several(_) => capacity_for(ring, room),
    }
}

/// What `run` makes of a document: the first reason to refuse it; where several workers are to run it, that the rings hold
/// fewer messages than the room of its session; else its session, ready to be run.
pub fn ready_run(
    alloc: Global,
    document: Document,
    options: RunOptions,
    workers: Workers,
) -> Result<Prepared, NoMemory>
    requires ready { DocumentIsReady document }
    ensures { IfOk result (λ p. Warrants workers p (GivesRun workers options document)) }
{
    let AcceptedDocument { names, session } = match accept_document(
        alloc,
        document,
        options.bound,
    ) {
        Ok(accepted) => accepted,
        Err(refused) => return Prepared::answered(refused.answer(alloc)),
    };
    let room = session.room();
    let capacity = match capacity_by(workers, options.ring, room) {
        Ok(capacity) => capacity,
        Err(capacity) => return Prepared::answered(too_small(alloc, capacity.messages(), room)),
    };
    let actors = actors_of(alloc, session.machines().len(), options.seed)?;
    Ok(Prepared::Run(Ready {
        names,
        session,
        actors,
        capacity,
        limit: options.limit,
    }))
}
