//! What the definitions of the answers of `draw` say together. The functions do nothing: each states a law.

ghost use Rattle.std.specs.Prelude.{ℕ, map};
ghost use Rattle.rs_derive.specs.Data.{Derivation_data};
ghost use Rattle.rs_derive.specs.Figures.{IsGreatest};
ghost use Rattle.rs_draw.specs.PutsOff.{left_at, puts_off_at};
ghost use Rattle.rs_model.specs.Data.{Machine_data};

/// The number of acts that a machine puts off at a state is the greatest of what it still owes after its act at a node with this
/// state.
pub fn most_acts_are_put_off()
    ensures { (sub above : Machine_data) (derivation : Derivation_data) (state : ℕ) → IsGreatest (map (left_at sub above state) derivation.nodes) (puts_off_at sub above derivation state) }
{}
