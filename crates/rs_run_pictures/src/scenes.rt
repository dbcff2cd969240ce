//! The order in which a run makes the acts of its transcripts.

ghost use Rattle.std.specs.Prelude.{◌≡◌, length, map, replicate, IfOk};
ghost use Rattle.rs_run_pictures.specs.Rounds as spec;

use rs_model::{Act, NoMemory};
use std::alloc::Global;
use std::marker::Model;

/// An act as it is drawn: the place of the role that makes it, the act, and how many messages its queue holds after it.
#[derive(Clone, Copy, Debug)]
pub struct DrawnAct {
    pub role: usize,
    pub act: Act,
    pub waiting: u64,
}

/// The acts of a role that aren't drawn yet.
#[derive(Drop)]
pub(crate) struct RoleActs {
    acts: Vec<Act>,
    next: usize,
}

impl Model for RoleActs {
    ghost use Rattle.std.specs.Prelude.{List, drop};
    ghost use Rattle.rs_model.specs.declared.machines.Act.{Act};

    ghost Value = { List Act };

    ghost view = { λ r. drop r.next r.acts.items };
}

impl RoleActs {
    ghost use Rattle.std.specs.Prelude.{◌≡◌, drop, length, slice_get};

    /// These acts.
    pub(crate) fn of(acts: Vec<Act>) -> RoleActs
        ensures { result ≡ acts.items }
    {
        RoleActs { acts, next: 0 }
    }

    /// The first of the acts.
    fn first(&self) -> Option<Act>
        ensures { result ≡ slice_get self.now 0 }
    {
        match self.acts.get(self.next) {
            Some(act) => Some(*act),
            None => None,
        }
    }

    /// How many acts they are.
    fn len(&self) -> usize
        ensures { result ≡ length self.now }
    {
        self.acts.len().saturating_sub(self.next)
    }

    /// Drops the first of the acts.
    fn pass(&mut self)
        ensures { self.new ≡ drop 1 self.old }
    {
        if self.next < self.acts.len() {
            self.next += 1;
        }
    }
}

/// How many messages of one sender wait for each receiver.
#[derive(Drop)]
struct Row {
    counts: Vec<u64>,
}

impl Model for Row {
    ghost use Rattle.std.specs.Prelude.{List, ℕ};

    ghost Value = { List ℕ };

    ghost view = { λ r. r.counts.items };
}

impl Row {
    ghost use Rattle.std.specs.Prelude.{◌≡◌, IfOk, replicate, slice_index_or, slice_set};

    /// A row in which no message waits for any receiver.
    fn new(alloc: Global, receivers: usize) -> Result<Row, NoMemory>
        ensures { IfOk result (λ row. row ≡ replicate receivers 0) }
    {
        let mut counts = Vec::with_capacity(alloc, receivers)?;
        for _ in 0..receivers {
            counts.push(0)?;
        }
        Ok(Row { counts })
    }

    fn count(&self, receiver: usize) -> u64
        ensures { result ≡ slice_index_or self.now receiver 0 }
    {
        match self.counts.get(receiver) {
            Some(count) => *count,
            None => 0,
        }
    }

    fn set(&mut self, receiver: usize, many: u64)
        ensures { self.new ≡ slice_set self.old receiver many }
    {
        if receiver < self.counts.len() {
            self.counts[receiver] = many;
        }
    }
}

/// A picture in the making: the acts of each role that aren't drawn yet, how many messages wait in each queue, and the acts
/// that are drawn.
#[derive(Drop)]
pub(crate) struct Scene {
    left: Vec<RoleActs>,
    waiting: Vec<Row>,
    drawn: Vec<DrawnAct>,
}

impl Model for Scene {
    ghost use Rattle.rs_run_pictures.specs.Rounds.{Scene_data};

    ghost Value = { Scene_data };

    ghost view = { λ s. record { left = s.left.items; waiting = s.waiting.items; drawn = s.drawn.items } };
}

fn rows_of(alloc: Global, roles: usize) -> Result<Vec<Row>, NoMemory>
    ensures { IfOk result (λ rows. rows.items ≡ replicate roles (replicate roles 0)) }
{
    let mut rows = Vec::with_capacity(alloc, roles)?;
    for _ in 0..roles {
        rows.push(Row::new(alloc, roles)?)?;
    }
    Ok(rows)
}

impl Scene {
    ghost use Rattle.std.specs.Prelude.{◌≡◌, [], IfOk, OnOk, drop, length, slice_index_or, slice_set};
    ghost use Rattle.rs_run_pictures.specs.Rounds as spec;

    /// Before the first round.
    fn new(alloc: Global, left: Vec<RoleActs>) -> Result<Scene, NoMemory>
        ensures { IfOk result (λ scene. scene ≡ spec.first_scene left.items) }
    {
        let waiting = rows_of(alloc, left.len())?;
        Ok(Scene {
            left,
            waiting,
            drawn: Vec::new(alloc),
        })
    }

    fn waiting(&self, sender: usize, receiver: usize) -> u64
        ensures { result ≡ spec.many_waiting self.now.waiting sender receiver }
    {
        match self.waiting.get(sender) {
            Some(row) => row.count(receiver),
            None => 0,
        }
    }

    fn set_waiting(&mut self, sender: usize, receiver: usize, many: u64)
        ensures waiting { self.new.waiting ≡ spec.with_waiting self.old.waiting sender receiver many }
        ensures left { self.new.left ≡ self.old.left }
        ensures drawn { self.new.drawn ≡ self.old.drawn }
    {
        if sender < self.waiting.len() {
            self.waiting[sender].set(receiver, many);
        }
    }

    fn next_act(&self, role: usize) -> Option<Act>
        ensures { result ≡ spec.next_act self.now role }
    {
        match self.left.get(role) {
            Some(acts) => acts.first(),
            None => None,
        }
    }

    fn pass(&mut self, role: usize)
        ensures left { self.new.left ≡ slice_set self.old.left role (drop 1 (slice_index_or self.old.left role [])) }
        ensures waiting { self.new.waiting ≡ self.old.waiting }
        ensures drawn { self.new.drawn ≡ self.old.drawn }
    {
        if role < self.left.len() {
            self.left[role].pass();
        }
    }

    /// The role makes its next act, after which this number of messages waits in the queue.
    fn make(
        &mut self,
        role: usize,
        act: Act,
        sender: usize,
        receiver: usize,
        many: u64,
    ) -> Result<(), NoMemory>
        ensures { OnOk result (self.new ≡ spec.made self.old role act sender receiver many) }
    {
        self.drawn.push(DrawnAct {
            role,
            act,
            waiting: many,
        })?;
        self.pass(role);
        self.set_waiting(sender, receiver, many);
        Ok(())
    }

    /// The turn of a role: it makes its next act if it can.
    fn turn(&mut self, capacity: u16, role: usize) -> Result<(), NoMemory>
        ensures { OnOk result (self.new ≡ spec.turn capacity role self.old) }
    {
        match self.next_act(role) {
            None => Ok(()),
            Some(Act::Puts { peer, label, sort }) => {
                let receiver = usize::from(peer.0);
                let many = self.waiting(role, receiver);
                if many < u64::from(capacity) {
                    let act = Act::Puts { peer, label, sort };
                    self.make(role, act, role, receiver, many + 1)
                } else {
                    Ok(())
                }
            }
            Some(Act::Takes { peer, label, sort }) => {
                let sender = usize::from(peer.0);
                let many = self.waiting(sender, role);
                if 0 < many {
                    let act = Act::Takes { peer, label, sort };
                    self.make(role, act, sender, role, many - 1)
                } else {
                    Ok(())
                }
            }
        }
    }

    /// A round: the turns of all roles.
    fn round(&mut self, capacity: u16) -> Result<(), NoMemory>
        ensures { OnOk result (self.new ≡ spec.round capacity self.old) }
    {
        for role in 0..self.left.len() {
            self.turn(capacity, role)?;
        }
        Ok(())
    }

    /// So many rounds.
    fn rounds(&mut self, capacity: u16, many: usize) -> Result<(), NoMemory>
        ensures { OnOk result (self.new ≡ spec.rounds capacity many self.old) }
    {
        for _ in 0..many {
            self.round(capacity)?;
        }
        Ok(())
    }

    /// For each of these numbers as many rounds.
    fn rounds_for(&mut self, capacity: u16, counts: &[usize]) -> Result<(), NoMemory>
        ensures { OnOk result (self.new ≡ spec.rounds_for capacity counts.now self.old) }
    {
        for many in counts {
            self.rounds(capacity, *many)?;
        }
        Ok(())
    }
}

/// How many acts each role has.
fn counts_of(alloc: Global, acts: &[RoleActs]) -> Result<Vec<usize>, NoMemory>
    ensures { IfOk result (λ counts. counts.items ≡ map (λ list. length list) acts.now) }
{
    let mut counts = Vec::with_capacity(alloc, acts.len())?;
    for list in acts {
        counts.push(list.len())?;
    }
    Ok(counts)
}

/// The acts in the order of the rounds of a run over queues of this capacity.
pub(crate) fn acts_in_rounds(
    alloc: Global,
    capacity: u16,
    acts: Vec<RoleActs>,
) -> Result<Vec<DrawnAct>, NoMemory>
    ensures { IfOk result (λ drawn. drawn.items ≡ spec.acts_in_rounds capacity acts.items) }
{
    let counts = counts_of(alloc, &acts)?;
    let mut scene = Scene::new(alloc, acts)?;
    scene.rounds_for(capacity, &counts)?;
    Ok(scene.drawn)
}
