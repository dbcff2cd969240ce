//! What the definitions of pictures say together. The functions do nothing: each states a law.

ghost use Rattle.std.specs.Prelude.{◌≡◌, ◌<◌, ◌+◌, ◌++◌, ℕ, Bool, List, Some, drop, length, slice_get, take};
ghost use Rattle.std.specs.List.{count_by};
ghost use Rattle.rs_model.specs.Data.{Machine_data, Names_data, Protocol_data};
ghost use Rattle.rs_model.specs.declared.machines.State.{State};
ghost use Rattle.rs_text.specs.Sound.{IsSound};
ghost use Rattle.rs_global.specs.Canonical.{IsTextShaped};
ghost use Rattle.rs_global.specs.Enough.{AreEnough};
ghost use Rattle.rs_pictures.specs.Lines.{Says};
ghost use Rattle.rs_pictures.specs.Machines.{arrows_from, state_arrows, state_puts_off, states_put_off};
ghost use Rattle.rs_pictures.specs.Messages.{arrows_in, messages_of};
ghost use Rattle.rs_pictures.specs.Sequences.{IsPictureOf, body_lines};

/// A protocol that some text spells has a picture, by names that are enough.
pub fn picture_is_there()
    ensures { (names : Names_data) (protocol : Protocol_data) → IsTextShaped protocol → AreEnough names protocol → (text : List ℕ) × IsPictureOf names protocol text }
{}

/// A protocol that some text spells has one picture at most.
pub fn picture_is_one()
    ensures { (names : Names_data) (protocol : Protocol_data) (text other : List ℕ) → IsTextShaped protocol → IsPictureOf names protocol text → IsPictureOf names protocol other → text ≡ other }
{}

/// The arrows of the picture are the messages of the protocol's talks, with their labels and sorts, each once: as many arrows
/// as messages pass any test.
pub fn arrows_are_the_messages()
    ensures { (names : Names_data) (protocol : Protocol_data) (text : List ℕ) (test : Says → Bool) → IsTextShaped protocol → IsSound names → AreEnough names protocol
        → (picture : IsPictureOf names protocol text) → count_by test (arrows_in (body_lines names 1 picture.tree.body)) ≡ count_by test (messages_of names protocol) }
{}

/// The arrows of a machine's picture are those of its states in order of their numbers, each state once: an arrow for each arm,
/// with its act, or one to the end.
pub fn arrows_are_the_acts()
    ensures { (names : Names_data) (machine : Machine_data) (n : ℕ) (state : State) → slice_get machine.states n ≡ Some state
        → arrows_from names 0 machine.states ≡ arrows_from names 0 (take n machine.states) ++ (state_arrows names n state ++ arrows_from names (n + 1) (drop (n + 1) machine.states)) }
{}

/// What is written beside the states of a machine is a line for each state in order of their numbers, with the number of acts that
/// the function gives for the state.
pub fn acts_put_off_are_beside_their_states()
    ensures { (acts : ℕ → ℕ) (machine : Machine_data) (n : ℕ) → n < length machine.states
        → states_put_off acts 0 machine.states ≡ states_put_off acts 0 (take n machine.states) ++ (state_puts_off n (acts n) ++ states_put_off acts (n + 1) (drop (n + 1) machine.states)) }
{}
