//! Where a label stands among arms.
ghost use Rattle.std.specs.Prelude.{◌≡◌, ◌↔◌, ◌<◌, ◌^◌, IsTrue, ℕ, Some, slice_get};
ghost use Rattle.rs_core.specs.Choosable.{label_of};
ghost use Rattle.rs_model.specs.declared.graph.Arm.{Arm};

use rs_model::{Arm, Label};

/// The place of the arm with that label, of arms with no label twice: so there are at most as many as labels.
#[inline(always)]
pub fn place_by_label(arms: &[Arm], label: Label) -> u16
    requires once { (i j : ℕ) (a b : Arm) → slice_get arms.now i ≡ Some a → slice_get arms.now j ≡ Some b → a.label ≡ b.label → i ≡ j }
    requires some { (place : ℕ) × (label_of (slice_get arms.now place) ≡ Some label) }
    ensures { label_of (slice_get arms.now result) ≡ Some label }
{
    for (place, arm) in arms.iter().enumerate() {
        if has_label(arm, label) {
            match u16::try_from(place) {
                Ok(place) => return place,
                Err(_) => unreachable!(),
            }
        }
    }
    unreachable!()
}

#[inline(always)]
fn has_label(arm: &Arm, label: Label) -> bool
    ensures same { IsTrue result ↔ (arm.now.label ≡ label) }
    ensures small { arm.now.label.0 < 2 ^ 16 }
{
    arm.label.0 == label.0
}
