//! The actor that works.

ghost use Rattle.std.specs.Prelude.{◌≡◌};
ghost use Rattle.rs_core.specs.Draws.{after, after_many};
ghost use Rattle.benches.specs.Working.{by_working, one_more, works_well};

use rs_core::{Actor, SeededActor};
use rs_model::{Arm, NoMemory, Value};
use std::alloc::Global;

/// An actor that chooses at random what its role sends, and works at each act: it puts its number through `rounds` rounds.
#[derive(Drop)]
pub struct WorkingActor {
    pub draws: SeededActor,
    pub number: u32,
    pub rounds: u32,
    pub acts: u64,
}

fn after(number: u32) -> u32
    ensures { result ≡ after number }
{
    ((u64::from(number) * 1_103_515_245 + 12_345) % (1 << 31)) as u32
}

/// The number after `rounds` rounds of a linear congruential generator.
fn rounds_behind_act(rounds: u32, number: u32) -> u32
    ensures { result ≡ after_many rounds number }
{
    let mut reached = number;
    for _ in 0..rounds {
        reached = after(reached);
    }
    reached
}

fn one_more(count: u64) -> u64
    ensures { result ≡ one_more count }
{
    count.saturating_add(1)
}

impl WorkingActor {
    fn work(&mut self)
        ensures number { self.new.number ≡ after_many self.old.rounds self.old.number }
        ensures acts { self.new.acts ≡ one_more self.old.acts }
        ensures others { (self.new.draws ≡ self.old.draws) × (self.new.rounds ≡ self.old.rounds) }
    {
        self.number = rounds_behind_act(self.rounds, self.number);
        self.acts = one_more(self.acts);
    }
}

impl Actor for WorkingActor {
    ghost behaviour = { by_working };

    fn choose(&mut self, alloc: Global, arms: &[Arm]) -> Result<(u16, Value), NoMemory> {
        let choice = self.draws.choose(alloc, arms)?;
        self.work();
        Ok(choice)
    }

    fn take(
        &mut self,
        _alloc: Global,
        _arms: &[Arm],
        _arm: u16,
        _value: &Value,
    ) -> Result<(), NoMemory> {
        self.work();
        Ok(())
    }

    ghost chooses_well = { works_well };
}
