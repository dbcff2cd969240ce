//! A user of the library: it opens the document of standard input, runs its session with draws, and prints what each role did.
#![tactic(auto)]

ghost use Rattle.std.specs.Prelude.{◌≡◌, IfOk, min};
ghost use Rattle.rs_answers.specs.Data.{Answer_data};
ghost use Rattle.rs_runs.specs.Runs.{TellsRun, actor_of};
ghost use Rattle.rs_model.specs.declared.limits.TheConstants.{MOST_CAPACITY};
ghost use Rattle.rs_safety.specs.Room.{room_of};
ghost use Rattle.uses.specs.declared.TheConstants.{LIMIT, SEED};

use rs_core::{RunFault, SeededActor};
use rs_io::{StdSource, read_all};
use rs_model::MOST_BYTES;
use rs_open::{OpenSession, open};
use rs_text::Text;
use std::alloc::{Alloc, Global};
use std::process::ExitCode;

/// How many acts a role makes at most.
const LIMIT: u32 = 10_000;

/// The seed of the random choices.
const SEED: u32 = 0;

/// Returns what each role did, or which role was stopped, in a run with random choices: exactly what `run` prints of it.
fn run_drawn(alloc: Global, session: &OpenSession) -> Result<Text, RunFault>
    ensures { IfOk result (λ text. (answer : Answer_data) × (text ≡ answer.text)
        × TellsRun session.now.names session.now.session.machines (actor_of SEED) LIMIT (min (room_of session.now.session.derivations) MOST_CAPACITY) answer) }
{
    let run = session
        .run(alloc, LIMIT, |role| Ok(SeededActor::new(SEED, role)))?
        .run;
    Ok(session.told(alloc, run.outcome)?)
}

/// Prints what each role did in a run of the text's session, or why the text is refused. Returns true if a run was printed.
fn answer<R: Print>(rt: &R, alloc: Global, text: &[u8]) -> bool {
    match open(alloc, text) {
        Ok(session) => match run_drawn(alloc, &session) {
            Ok(told) => rt.write_all(told.as_slice()).is_ok(),
            Err(_) => false,
        },
        Err(refused) => {
            let _ = print!(rt; "{refused}");
            false
        }
    }
}

fn main(rt: HostRuntime) -> ExitCode {
    let alloc = rt.alloc();
    let is_run = match read_all(alloc, &mut StdSource::new(rt.reader()), MOST_BYTES) {
        Ok(text) => answer(&rt, alloc, text.as_slice()),
        Err(_) => false,
    };
    ExitCode::from(if is_run { 0 } else { 1 })
}
