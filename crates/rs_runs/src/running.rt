//! The run of what is ready, and what it is told as.

ghost use Rattle.std.specs.Prelude.{◌≡◌, IfOk};
ghost use Rattle.rs_runs.specs.Ready.{ComesOf, IsReadyFor};
ghost use Rattle.rs_runs.specs.declared.ready.Prepared.TheVariants as prepared;
ghost use Rattle.rs_model.specs.declared.runs.Workers.TheVariants.{One, Several};

use crate::answers::AnswerWithSession;
use crate::demos::finish_demo;
use crate::ready::{Prepared, Ready};
use crate::runs::{finish_run, full_answer};
use rs_core::{RunFault, SeededActor};
use rs_demos::DemoActor;
use rs_exec::run_inline;
use rs_model::{Crew, Demo, NoMemory};
use rs_pool::{Gate, run_pool};
use std::alloc::Global;
use std::sync::Wait;
use std::thread::Threads;

/// Runs the session of a document on this thread.
fn run_drawn_alone(alloc: Global, ready: Ready<SeededActor>) -> Result<AnswerWithSession, NoMemory>
    requires { IsReadyFor One (prepared.Run ready) }
    ensures { IfOk result (ComesOf One (prepared.Run ready)) }
{
    let Ready {
        names,
        session,
        actors,
        capacity,
        limit,
    } = ready;
    match run_inline(alloc, &session, actors, capacity.messages(), limit) {
        Ok(ran) => finish_run(alloc, &names, ran),
        Err(
            RunFault::Full {
                sender,
                receiver,
                sent,
                taken,
            },
        ) => AnswerWithSession::alone(full_answer(alloc, &names, sender, receiver, sent, taken)),
        Err(RunFault::NoMemory) => Err(NoMemory),
    }
}

/// Runs the session of a demo on this thread. Its rings are large enough, so it is never full.
fn perform_alone(
    alloc: Global,
    kind: Demo,
    ready: Ready<DemoActor>,
) -> Result<AnswerWithSession, NoMemory>
    requires { IsReadyFor One (prepared.Demo kind ready) }
    ensures { IfOk result (ComesOf One (prepared.Demo kind ready)) }
{
    let Ready {
        names,
        session,
        actors,
        capacity,
        limit,
    } = ready;
    match run_inline(alloc, &session, actors, capacity.messages(), limit) {
        Ok(ran) => finish_demo(alloc, kind, &names, ran),
        Err(RunFault::Full { .. }) => unreachable!(),
        Err(RunFault::NoMemory) => Err(NoMemory),
    }
}

/// Runs what is ready on this thread, where there is something to run, and gives the answer.
///
/// The one error is that memory was refused.
pub fn run_alone(alloc: Global, prepared: Prepared) -> Result<AnswerWithSession, NoMemory>
    requires { IsReadyFor One prepared }
    ensures { IfOk result (ComesOf One prepared) }
{
    match prepared {
        Prepared::Answered(answer) => Ok(AnswerWithSession {
            answer,
            closed: None,
        }),
        Prepared::Run(ready) => run_drawn_alone(alloc, ready),
        Prepared::Demo(kind, ready) => perform_alone(alloc, kind, ready),
    }
}

/// Runs the session of a document by a crew.
fn run_drawn_by_crew<R: Threads + Wait + Sync, G: Gate + Sync>(
    rt: &R,
    alloc: Global,
    ready: Ready<SeededActor>,
    crew: Crew,
    gate: &G,
) -> Result<AnswerWithSession, NoMemory>
    requires { IsReadyFor (Several crew) (prepared.Run ready) }
    ensures { IfOk result (ComesOf (Several crew) (prepared.Run ready)) }
{
    let Ready {
        names,
        session,
        actors,
        capacity,
        limit,
    } = ready;
    let ran = run_pool(
        rt,
        alloc,
        &session,
        actors,
        capacity.messages(),
        limit,
        crew.workers(),
        gate,
    )?;
    finish_run(alloc, &names, ran)
}

/// Runs the session of a demo by a crew.
fn perform_by_crew<R: Threads + Wait + Sync, G: Gate + Sync>(
    rt: &R,
    alloc: Global,
    kind: Demo,
    ready: Ready<DemoActor>,
    crew: Crew,
    gate: &G,
) -> Result<AnswerWithSession, NoMemory>
    requires { IsReadyFor (Several crew) (prepared.Demo kind ready) }
    ensures { IfOk result (ComesOf (Several crew) (prepared.Demo kind ready)) }
{
    let Ready {
        names,
        session,
        actors,
        capacity,
        limit,
    } = ready;
    let ran = run_pool(
        rt,
        alloc,
        &session,
        actors,
        capacity.messages(),
        limit,
        crew.workers(),
        gate,
    )?;
    finish_demo(alloc, kind, &names, ran)
}

/// Runs what is ready by a crew, where there is something to run, and gives the answer.
///
/// The workers are threads, and the gate's calls are made round each turn of a worker. The call may wait for them: its promise
/// holds if it returns. The one error is that memory was refused.
pub fn run_by_crew<R: Threads + Wait + Sync, G: Gate + Sync>(
    rt: &R,
    alloc: Global,
    prepared: Prepared,
    crew: Crew,
    gate: &G,
) -> Result<AnswerWithSession, NoMemory>
    requires { IsReadyFor (Several crew) prepared }
    ensures { IfOk result (ComesOf (Several crew) prepared) }
{
    match prepared {
        Prepared::Answered(answer) => Ok(AnswerWithSession {
            answer,
            closed: None,
        }),
        Prepared::Run(ready) => run_drawn_by_crew(rt, alloc, ready, crew, gate),
        Prepared::Demo(kind, ready) => perform_by_crew(rt, alloc, kind, ready, crew, gate),
    }
}
