//! An actor that draws what it chooses.
ghost use Rattle.std.specs.Prelude.{◌≡◌, ◌+◌, ◌%◌, ◌^◌, ◌<◌, IfOk, OnOk};
ghost use Rattle.rs_core.specs.Draws.{after, after_many, after_value, by_draws, draw, draw_numbers, draw_octets, draw_value, draw_whole};
ghost use Rattle.rs_core.specs.Choosing.{draws_well};

use crate::Actor;
use rs_model::{Arm, NoMemory, Numbers, Octets, Role, Sort, Value};
use std::alloc::Global;
use std::marker::Model;

/// A linear congruential generator, by its number, which each draw replaces.
#[derive(Clone, Copy, Debug)]
pub(crate) struct Draws {
    pub(crate) number: u32,
}

impl Draws {
    fn draw(&mut self) -> u16
        ensures draw { result ≡ draw self.old.number }
        ensures small { result < 32768 }
        ensures after { self.new.number ≡ after self.old.number }
    {
        let number = (u64::from(self.number) * 1_103_515_245 + 12_345) % (1 << 31);
        self.number = number as u32;
        (number / 65_536) as u16
    }

    fn draw_whole(&mut self) -> i64
        ensures draw { result ≡ draw_whole self.old.number }
        ensures after { self.new.number ≡ after self.old.number }
    {
        i64::from(self.draw()) - 16_384
    }

    #[inline(always)]
    fn draw_value(&mut self, alloc: Global, sort: Sort) -> Result<Value, NoMemory>
        ensures value { IfOk result (λ v. v ≡ draw_value sort self.old.number) }
        ensures after { OnOk result (self.new.number ≡ after_value sort self.old.number) }
    {
        Ok(match sort {
            Sort::Unit => Value::Unit,
            Sort::Flag => Value::Flag(self.draw() % 2 == 1),
            Sort::Natural => Value::Natural(u64::from(self.draw())),
            Sort::Whole => Value::Whole(self.draw_whole()),
            Sort::Octets => Value::Octets(self.draw_octets(alloc)?),
            Sort::Numbers => Value::Numbers(self.draw_numbers(alloc)?),
        })
    }

    fn draw_octets(&mut self, alloc: Global) -> Result<Octets, NoMemory>
        ensures octets { IfOk result (λ v. v ≡ draw_octets (draw self.old.number % 5) (after self.old.number)) }
        ensures after { OnOk result (self.new.number ≡ after_many (draw self.old.number % 5) (after self.old.number)) }
    {
        let many = self.draw() % 5;
        let mut bytes = Vec::new(alloc);
        for _ in 0..many {
            bytes.push((self.draw() % 256) as u8)?;
        }
        Octets::of(alloc, &bytes)
    }

    fn draw_numbers(&mut self, alloc: Global) -> Result<Numbers, NoMemory>
        ensures numbers { IfOk result (λ v. v ≡ draw_numbers (draw self.old.number % 5) (after self.old.number)) }
        ensures after { OnOk result (self.new.number ≡ after_many (draw self.old.number % 5) (after self.old.number)) }
    {
        let many = self.draw() % 5;
        let mut items = Vec::new(alloc);
        for _ in 0..many {
            items.push(self.draw_whole())?;
        }
        Numbers::of(alloc, &items)
    }
}

/// The actor that chooses by draws: seen as the number of its generator.
#[derive(Drop, Debug)]
pub struct SeededActor {
    draws: Draws,
}

impl Model for SeededActor {
    ghost use Rattle.std.specs.Prelude.{ℕ};

    ghost Value = { ℕ };

    ghost view = { λ a. a.draws.number };
}

impl SeededActor {
    /// The actor of the role, from this seed.
    pub fn new(seed: u32, role: Role) -> SeededActor
        ensures { result ≡ (seed + role.0) % 2 ^ 31 }
    {
        SeededActor {
            draws: Draws {
                number: ((u64::from(seed) + u64::from(role.0)) % (1 << 31)) as u32,
            },
        }
    }
}

impl Actor for SeededActor {
    ghost behaviour = { by_draws };

    /// The first draw picks the arm, the next ones make a value of its sort.
    #[inline(always)]
    fn choose(&mut self, alloc: Global, arms: &[Arm]) -> Result<(u16, Value), NoMemory> {
        let mut draws = self.draws;
        let place = draws.draw() as usize % arms.len();
        let value = draws.draw_value(alloc, arms[place].sort)?;
        self.draws = draws;
        Ok((place as u16, value))
    }

    /// What comes in changes nothing.
    fn take(
        &mut self,
        _alloc: Global,
        _arms: &[Arm],
        _arm: u16,
        _value: &Value,
    ) -> Result<(), NoMemory> {
        Ok(())
    }

    ghost chooses_well = { draws_well };
}
