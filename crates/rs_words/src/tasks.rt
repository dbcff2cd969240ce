//! What the words of the program can ask for.

ghost use Rattle.std.specs.Prelude.{◌≡◌};
ghost use Rattle.rs_words.specs.Tasks as spec;

use rs_model::{Bound, Capacity, Demo, Name, RunOptions, Workers};

/// What the words ask for, with the value of each option, or what stands in its place where it isn't given.
#[derive(Drop, Debug)]
pub enum Task {
    /// It is carried out on the document that the input spells.
    OnDocument(DocumentTask),
    /// It is carried out on the data of the input.
    OnData(DemoTask),
    /// A pipeline is made from a number, and checked. The input isn't read.
    Gen {
        /// The number.
        number: u32,
    },
}

/// What can be done with a document.
#[derive(Drop, Debug)]
pub enum DocumentTask {
    /// It is checked.
    Check(CheckOptions),
    /// The derivations that it has are checked.
    Verify,
    /// The derivations that it has are checked, and it is printed in its canonical form with them.
    Migrate,
    /// It is printed in its canonical form.
    Show,
    /// The projection onto each role is printed.
    Project,
    /// It is checked, and its machines are run.
    Run {
        /// How they are derived and run.
        options: RunOptions,
        /// Who makes the turns.
        workers: Workers,
    },
    /// The machine of one role is improved, and the document is printed with derivations of all machines.
    Improve(ImproveOptions),
    /// It is checked; where it is refused, more lines tell why.
    Explain {
        /// The bound of the search for derivations.
        bound: Bound,
    },
    /// Its protocol is drawn, or the machine of a role.
    Draw {
        /// The name of the role, if one is given.
        role: Option<Name>,
    },
    /// It is checked, its machines are run, and the run is drawn.
    DrawRun {
        /// How they are derived and run.
        options: RunOptions,
    },
}

/// How a document is checked.
#[derive(Clone, Copy, Debug, PartialEq, Eq)]
pub struct CheckOptions {
    /// The bound of the search for derivations.
    pub bound: Bound,
    /// Whether the derivations are printed in place of the report.
    pub derivations: bool,
}

/// Whose machine is improved, and how far.
#[derive(Drop, Debug)]
pub struct ImproveOptions {
    /// The name of the role.
    pub role: Name,
    /// The bound of the searches for derivations.
    pub bound: Bound,
    /// How many swaps are made, at most.
    pub swaps: u32,
}

/// A demo that is run on data.
#[derive(Clone, Copy, Debug, PartialEq, Eq)]
pub struct DemoTask {
    /// Which demo.
    pub kind: Demo,
    /// How many messages each ring holds, where it is told.
    pub ring: Option<Capacity>,
    /// Who makes the turns.
    pub workers: Workers,
}

impl Task {
    /// Who makes the turns of its run. A task that runs nothing needs one worker.
    pub fn workers(&self) -> Workers
        ensures { result ≡ spec.workers_of self.now }
    {
        match self {
            Task::OnDocument(DocumentTask::Run { workers, .. }) => *workers,
            Task::OnData(demo) => demo.workers,
            _ => Workers::One,
        }
    }
}
