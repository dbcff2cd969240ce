//! Laws about the definitions: each function does nothing, and its contract is the law.

ghost use Rattle.std.specs.Prelude.{◌≡◌, ◌++◌, ℕ, List, Option, Some, None, map, slice_get};
ghost use Rattle.rs_model.specs.Data.{Machine_data};
ghost use Rattle.rs_model.specs.Serving.{Serves};
ghost use Rattle.rs_model.specs.declared.graph.Arm.{Arm};
ghost use Rattle.rs_model.specs.declared.values.Sort.{Sort};
ghost use Rattle.rs_model.specs.declared.values.Value.{Value};
ghost use Rattle.rs_core.specs.Actors.{Choice, Plays, PlaysFrom};
ghost use Rattle.rs_core.specs.Histories.{History};
ghost use Rattle.rs_actors.specs.Common.{collector_conduct, common_conduct, mapper_conduct, placeholder_conduct, source_conduct};
ghost use Rattle.rs_actors.specs.Data.{Mapper_data};
ghost use Rattle.rs_actors.specs.Talking.{IsFirstArm, arm_place, by_sorts};
ghost use Rattle.rs_actors.specs.Talks.{AreEmpty, HandsOut, HasArmsForAll, HasKept, SendsInOrder, Talks, value_kept, values_got, values_sent};
ghost use Rattle.rs_actors.specs.declared.common.CommonTalker.{CommonTalker};
ghost use Rattle.rs_actors.specs.declared.common.CommonTalker.TheVariants as common;
ghost use Rattle.rs_actors.specs.declared.placeholders.Placeholder.{Placeholder};

use crate::{Talker, ValueFunction};

/// The arm by which a value goes is the first where its sort may stand; where there is none, it may stand at no arm.
pub fn the_first_arm_is_taken()
    ensures some { (sort : Sort) (arms : List Arm) (place : ℕ) → arm_place sort arms ≡ Some place → IsFirstArm sort arms place }
    ensures none { (sort : Sort) (arms : List Arm) (place : ℕ) (arm : Arm) → arm_place sort arms ≡ None → slice_get arms place ≡ Some arm → Serves sort arm.sort → ⊥ }
{}

/// Whatever its machine is, what a talker's actor plays is what the talker says and hears: it sends the value at hand, or an
/// empty one, and is told each value that comes. A choice that is kept is said, too.
pub fn what_is_played_is_said_and_heard<T: Talker>()
    ensures from { (machine : Machine_data) (s t : ℕ) (talker after : T) (history : History) → PlaysFrom (by_sorts T.conduct) machine s talker history t after → Talks T.conduct talker history after }
    ensures plays { (machine : Machine_data) (talker after : T) (history : History) (kept : Option Choice) → Plays (by_sorts T.conduct) machine talker history kept after
        → (before : T) × Talks T.conduct talker history before × HasKept T.conduct before kept after }
{}

/// What a source has sent, with the value that it keeps, are the first of its values, in order, with empty ones between them
/// where its machine had no arm for the next, and it holds the rest.
pub fn sources_send_their_values_in_order()
    ensures { (machine : Machine_data) (values left : List Value) (history : History) (kept : Option Choice) → Plays (by_sorts source_conduct) machine values history kept left
        → HandsOut values (values_sent history ++ value_kept kept) left }
{}

/// Where its machine has arms for all its values, a source sends empty ones behind the last alone.
pub fn sources_with_arms_send_their_values()
    ensures from { (machine : Machine_data) (s t : ℕ) (values left : List Value) (history : History) → HasArmsForAll machine values → PlaysFrom (by_sorts source_conduct) machine s values history t left
        → SendsInOrder values (values_sent history) left }
    ensures plays { (machine : Machine_data) (values left : List Value) (history : History) → HasArmsForAll machine values → Plays (by_sorts source_conduct) machine values history None left
        → SendsInOrder values (values_sent history) left }
{}

/// A collector holds what it has held, and behind it the values that have come, in order. All that it sends is empty.
pub fn collectors_keep_what_comes()
    ensures keeps { (machine : Machine_data) (values after : List Value) (history : History) (kept : Option Choice) → Plays (by_sorts collector_conduct) machine values history kept after
        → after ≡ values ++ values_got history }
    ensures sends { (machine : Machine_data) (values after : List Value) (history : History) (kept : Option Choice) → Plays (by_sorts collector_conduct) machine values history kept after
        → AreEmpty (values_sent history) }
{}

/// What a mapper has sent, with the value that it keeps, are the images of what came, in order, with empty values between them
/// where it had none or its machine no arm for the next; it holds those that it hasn't sent.
pub fn mappers_send_the_images<F: ValueFunction>()
    ensures order { (machine : Machine_data) (mapper after : Mapper_data F) (history : History) (kept : Option Choice) → Plays (by_sorts (mapper_conduct F.image)) machine mapper history kept after
        → HandsOut (mapper.images ++ map (F.image mapper.function) (values_got history)) (values_sent history ++ value_kept kept) after.images }
    ensures function { (machine : Machine_data) (mapper after : Mapper_data F) (history : History) (kept : Option Choice) → Plays (by_sorts (mapper_conduct F.image)) machine mapper history kept after
        → after.function ≡ mapper.function }
{}

/// All that a placeholder sends is empty.
pub fn placeholders_send_empty_values()
    ensures { (machine : Machine_data) (one after : Placeholder) (history : History) (kept : Option Choice) → Plays (by_sorts placeholder_conduct) machine one history kept after → AreEmpty (values_sent history) }
{}

/// In a session with talkers of several kinds each plays what it would play alone.
pub fn talkers_of_a_session_play_as_alone<T: Talker>()
    ensures source { (machine : Machine_data) (values : List Value) (after : CommonTalker T) (history : History) (kept : Option Choice) → Plays (by_sorts (common_conduct T.conduct)) machine (common.Source values) history kept after
        → (left : List Value) × (after ≡ common.Source left) × Plays (by_sorts source_conduct) machine values history kept left }
    ensures collector { (machine : Machine_data) (values : List Value) (after : CommonTalker T) (history : History) (kept : Option Choice) → Plays (by_sorts (common_conduct T.conduct)) machine (common.Collector values) history kept after
        → (held : List Value) × (after ≡ common.Collector held) × Plays (by_sorts collector_conduct) machine values history kept held }
    ensures placeholder { (machine : Machine_data) (one : Placeholder) (after : CommonTalker T) (history : History) (kept : Option Choice) → Plays (by_sorts (common_conduct T.conduct)) machine (common.Placeholder one) history kept after
        → (same : Placeholder) × (after ≡ common.Placeholder same) × Plays (by_sorts placeholder_conduct) machine one history kept same }
    ensures own { (machine : Machine_data) (talker : T) (after : CommonTalker T) (history : History) (kept : Option Choice) → Plays (by_sorts (common_conduct T.conduct)) machine (common.Own talker) history kept after
        → (one : T) × (after ≡ common.Own one) × Plays (by_sorts T.conduct) machine talker history kept one }
{}
