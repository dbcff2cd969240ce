//! Laws over the definitions that the contracts cite. The functions do nothing: the contract is the law.

ghost use Rattle.std.specs.Prelude.{◌≡◌, ◌⊎◌, ◌<◌, ◌≤◌, ℕ, List, Some, length, slice_get};
ghost use Rattle.rs_model.specs.Data.{Machine_data};
ghost use Rattle.rs_model.specs.declared.limits.TheConstants.{MOST_STATES};
ghost use Rattle.rs_model.specs.WellFormed.{IsWellFormedMachine};
ghost use Rattle.rs_model.specs.declared.graph.Arm.{Arm};
ghost use Rattle.rs_model.specs.declared.graph.Role.{Role};
ghost use Rattle.rs_model.specs.declared.machines.Act.{Act};
ghost use Rattle.rs_model.specs.declared.machines.State.TheVariants.{Takes};
ghost use Rattle.rs_derive.specs.Derivations.{IsProper};
ghost use Rattle.rs_improve.specs.Data.{Improved_data};
ghost use Rattle.rs_improve.specs.Examples.{receives_first, sends_first};
ghost use Rattle.rs_improve.specs.Improved.{IsImproved, RefusesToImprove};
ghost use Rattle.rs_improve.specs.Swaps.{HasNoExchange, SwapsTo, SwapsToMoreThan};
ghost use Rattle.rs_improve.specs.Words.{SaysEarlier, SaysLater, SendsEarlier, Walks, receives_of, sends_of};
ghost use Rattle.rs_improve.specs.declared.improving.ImproveFault.TheVariants.{TooLarge};

/// A machine swaps to one machine at most; where it does, some state can be swapped, and it swaps to more states than a
/// limit if and only if the swapped machine has more.
pub fn swaps_are_one()
    ensures one { (machine a b : Machine_data) → SwapsTo machine a → SwapsTo machine b → a ≡ b }
    ensures some { (machine a : Machine_data) → SwapsTo machine a → HasNoExchange machine → ⊥ }
    ensures few { (machine a : Machine_data) (limit : ℕ) → SwapsTo machine a → length a.states ≤ limit → SwapsToMoreThan machine limit → ⊥ }
    ensures large { (machine a : Machine_data) (limit : ℕ) → SwapsTo machine a → limit < length a.states → SwapsToMoreThan machine limit }
    ensures more { (machine : Machine_data) (limit : ℕ) → SwapsToMoreThan machine limit → HasNoExchange machine → ⊥ }
{}

/// What a well-formed machine swaps to is well formed.
pub fn swapped_machines_are_well_formed()
    ensures { (machine swapped : Machine_data) (roles : ℕ) → IsWellFormedMachine machine roles → SwapsTo machine swapped → IsWellFormedMachine swapped roles }
{}

/// Each machine has no state that can be swapped, or would have too many states, or swaps to one that has no more.
pub fn a_swap_or_a_reason()
    ensures { (machine : Machine_data) → HasNoExchange machine ⊎ (SwapsToMoreThan machine MOST_STATES ⊎ ((swapped : Machine_data) × SwapsTo machine swapped × (length swapped.states ≤ MOST_STATES))) }
{}

/// For a machine, a bound and a number of swaps there is one improved machine at most.
pub fn improvements_are_one()
    ensures { (above : Machine_data) (bound asked : ℕ) (a b : Improved_data) → IsImproved above bound asked a → IsImproved above bound asked b → a ≡ b }
{}

/// Within a bound above 0 a well-formed machine has one, or there are too many candidates of the machine and itself, and
/// never both.
pub fn an_improvement_or_a_refusal()
    ensures either { (above : Machine_data) (bound asked : ℕ) → IsProper above → 0 < bound → ((i : Improved_data) × IsImproved above bound asked i) ⊎ RefusesToImprove above bound TooLarge }
    ensures apart { (above : Machine_data) (bound asked : ℕ) (i : Improved_data) → IsImproved above bound asked i → RefusesToImprove above bound TooLarge → ⊥ }
{}

/// Where no swap was made the machine is as it was.
pub fn machines_without_a_swap_stay()
    ensures { (above : Machine_data) (bound asked : ℕ) (i : Improved_data) → IsImproved above bound asked i → i.swaps ≡ 0 → i.machine ≡ above }
{}

/// A swapped machine says the same words, but for the order of a receive and the send after it: to each word of the one
/// there is a word of the other, in which the sends come later or earlier, and which is one act longer at most; where the
/// one ends the other does, with no act more.
pub fn swapped_machines_say_the_same()
    ensures later { (machine swapped : Machine_data) (early : List Act) (t : ℕ) → IsProper machine → SwapsTo machine swapped
        → Walks swapped swapped.start early t → SaysLater machine machine.start swapped early t }
    ensures earlier { (machine swapped : Machine_data) (late : List Act) (t : ℕ) → IsProper machine → SwapsTo machine swapped
        → Walks machine machine.start late t → SaysEarlier swapped swapped.start machine late t }
{}

/// Words of which one sends earlier have the same sends and the same receives, each in the same order.
pub fn words_that_send_earlier_have_the_same_acts()
    ensures sends { (early late : List Act) → SendsEarlier early late → sends_of early ≡ sends_of late }
    ensures receives { (early late : List Act) → SendsEarlier early late → receives_of early ≡ receives_of late }
{}

/// The machine that receives, sends and ends becomes the one that sends, receives and ends, and no other.
pub fn a_receive_then_a_send_is_swapped()
    ensures swaps { SwapsTo receives_first sends_first }
    ensures only { (swapped : Machine_data) → SwapsTo receives_first swapped → swapped ≡ sends_first }
{}

/// A machine that never receives can't be swapped.
pub fn what_only_sends_is_not_swapped()
    ensures { (machine : Machine_data) → ((state : ℕ) (peer : Role) (arms : List Arm) → slice_get machine.states state ≡ Some (Takes peer arms) → ⊥) → HasNoExchange machine }
{}
