//! The actor that plays a talker.

ghost use Rattle.std.specs.Prelude.{◌≡◌, ◌≤◌, ◌^◌, IfOk, OnErr};
ghost use Rattle.rs_model.specs.Serving.{serves};
ghost use Rattle.rs_actors.specs.Choosing.{chooses_by_sorts};
ghost use Rattle.rs_actors.specs.Talking.{arm_place, by_sorts};

use crate::talkers::{Talker, carried};
use rs_core::Actor;
use rs_model::{Arm, NoMemory, Sort, Value};
use std::alloc::Global;
use std::marker::Model;

/// The actor that plays a talker, and is seen as it.
///
/// It chooses by sorts: what the talker has at hand goes by the first arm where a value of its sort may stand. Where there is
/// none, an empty value goes by the first arm, and the talker keeps what it has. A `Natural` above
/// 9,223,372,036,854,775,807, which no message carries, goes as 0.
#[derive(Drop, Debug)]
pub struct TalkingActor<T: Drop> {
    talker: T,
}

impl<T: Drop> Model for TalkingActor<T> {
    ghost Value = { T };

    ghost view = { λ a. a.talker };
}

impl<T: Drop> TalkingActor<T> {
    /// The actor that plays the talker.
    pub fn new(talker: T) -> TalkingActor<T>
        ensures { result ≡ talker }
    {
        TalkingActor { talker }
    }

    /// The talker as it is now.
    pub fn talker(&self) -> &T
        ensures { result.now ≡ self.now }
    {
        &self.talker
    }

    /// The talker as it is now, behind which the actor is gone.
    pub fn into_talker(self) -> T
        ensures { result ≡ self }
    {
        self.talker
    }
}

/// The place of the first arm where a value of the sort may stand.
fn arm_place(sort: Sort, arms: &[Arm]) -> Option<usize>
    ensures { result ≡ arm_place sort arms.now }
{
    for (place, arm) in arms.iter().enumerate() {
        if sort.serves(arm.sort) {
            return Some(place);
        }
    }
    None
}

/// The place as an actor returns it, in 16 bits. The arms of a state have labels of their own, so there are 65,536 at most: at
/// more arms a place that is too large is refused as if memory had run out.
fn place_number(place: usize) -> Result<u16, NoMemory>
    ensures same { IfOk result (λ number. number ≡ place) }
    ensures large { OnErr result (2 ^ 16 ≤ place) }
{
    match u16::try_from(place) {
        Ok(number) => Ok(number),
        Err(_) => Err(NoMemory),
    }
}

impl<T: Talker> Actor for TalkingActor<T> {
    ghost behaviour = { by_sorts T.conduct };

    /// Sends what the talker has at hand by the first arm where its sort may stand, else an empty value by the first arm.
    fn choose(&mut self, alloc: Global, arms: &[Arm]) -> Result<(u16, Value), NoMemory> {
        match arm_place(self.talker.sort(), arms) {
            Some(place) => {
                let place = place_number(place)?;
                Ok((place, carried(self.talker.send(alloc)?)))
            }
            None => Ok((0, arms[0].sort.empty_value(alloc)?)),
        }
    }

    /// Gives the talker what comes.
    fn take(
        &mut self,
        alloc: Global,
        _arms: &[Arm],
        _arm: u16,
        value: &Value,
    ) -> Result<(), NoMemory> {
        self.talker.take(alloc, value)
    }

    ghost chooses_well = { chooses_by_sorts T.conduct };
}
