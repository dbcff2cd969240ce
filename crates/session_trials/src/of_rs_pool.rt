//! Runs by workers: where a role is stopped, and the calls of the gate. `.ci/examples` and `.ci/demos` compare runs by workers with
//! those of one.

ghost use Rattle.std.specs.Prelude.{◌≤◌};

use crate::documents::ENDLESS;
use crate::recorder::Recorder;
use crate::runs::{HowToRun, pool_run, seeded};
use rs_core::{Outcome, Run, Transcript};
use rs_demos::{DemoActor, demo_actors, demo_document};
use rs_model::Demo;
use rs_pool::{Gate, NoGate};
use std::alloc::Global;
use std::sync::Wait;
use std::test::Fail;
use std::thread::Threads;

const WORKERS: [u8; 5] = [1, 2, 4, 8, 16];

/// Whether a role of an endless session is stopped in a run by that number of workers, and all actors come back.
fn is_stopped<R: Threads + Wait + Sync>(rt: &R, alloc: Global, workers: u8) -> Result<bool, Fail>
    requires { (1 ≤ workers) × (workers ≤ 16) }
{
    let how = HowToRun {
        workers,
        limit: 500,
    };
    match pool_run(rt, alloc, ENDLESS, seeded(alloc, 2, 0)?, how, &NoGate) {
        Some(
            Run {
                outcome: Outcome::Stopped(role),
                actors,
            },
        ) => Ok(role.0 < 2 && actors.len() == 2),
        _ => Ok(false),
    }
}

#[test]
fn a_role_stops_at_its_limit(rt: HostRuntime) -> Result<(), Fail> {
    for workers in WORKERS {
        assert!(rt;
            is_stopped(&rt, rt.alloc(), workers)?,
            "with {workers} workers"
        );
    }
    Ok(())
}

/// The butterfly of eight numbers, run by that number of workers, with the gate.
fn butterfly_run<R: Threads + Wait + Sync, G: Gate + Sync>(
    rt: &R,
    alloc: Global,
    workers: u8,
    gate: &G,
) -> Option<Run<DemoActor>>
    requires { (1 ≤ workers) × (workers ≤ 16) }
{
    let Ok(actors) = demo_actors(alloc, Demo::Butterfly, b"1 2 3 4 5 6 7 8") else {
        return None;
    };
    let Ok(text) = demo_document(alloc, Demo::Butterfly, 8) else {
        return None;
    };
    let how = HowToRun {
        workers,
        limit: 4096,
    };
    pool_run(rt, alloc, text.as_slice(), actors, how, gate)
}

/// Whether the gate is called before and after each turn of each role: one turn for each act, and one more that finds its end.
fn lay_round_each_turn(gate: &Recorder, transcripts: &[Transcript]) -> bool {
    let mut role: u8 = 0;
    for transcript in transcripts {
        match gate.turns_of(role) {
            Some(turns) if turns > transcript.as_slice().len() as u64 => {}
            _ => return false,
        }
        role = role.saturating_add(1);
    }
    true
}

#[test]
fn the_gate_is_called_round_each_turn(rt: HostRuntime) -> Result<(), Fail> {
    let alloc = rt.alloc();
    let gate = Recorder::new(alloc, 4, 8)?;
    let Some(run) = butterfly_run(&rt, alloc, 4, &gate) else {
        panic!(rt; "the butterfly runs");
    };
    match &run.outcome {
        Outcome::Ended(transcripts) => {
            assert!(rt; transcripts.as_slice().len() == 8);
            assert!(rt; lay_round_each_turn(&gate, transcripts.as_slice()));
        }
        Outcome::Stopped(_) => assert!(rt; false, "all end"),
    }
    assert!(rt; gate.is_in_order());
    Ok(())
}
