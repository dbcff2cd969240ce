//! One sweep over flagged nodes, which finds those that can't go round.
ghost use Rattle.std.specs.Prelude.{◌≡◌, ℕ, false, length};
ghost use Rattle.rs_model.specs.declared.graph.Role.{Role};
ghost use Rattle.rs_project.specs.Marks.{HasUnreached, IsOn};
ghost use Rattle.rs_wellformed.specs.WellFormed.{IsWellFormed};

use crate::surveying::leads_to_one;
use rs_model::Protocol;

/// Takes the flags of nodes away that lead to no flagged one, in one sweep from the last node to the first; whether some
/// are left.
pub fn sweep(protocol: &Protocol, left: &mut Vec<bool>) -> bool
    requires well_formed { IsWellFormed protocol.now }
    requires size { length left.old.items ≡ length protocol.now.nodes }
    ensures size { length left.new.items ≡ length protocol.now.nodes }
    ensures unreached { (role : Role) → HasUnreached protocol.now role left.old.items → HasUnreached protocol.now role left.new.items }
    ensures none { result ≡ false → (n : ℕ) → IsOn left.new.items n → ⊥ }
{
    let mut some = false;
    let mut number = left.len();
    while number > 0 {
        number -= 1;
        peel_one(protocol, left, number);
        if left[number] {
            some = true;
        }
    }
    some
}

// Takes the flag of the node away where it leads to no flagged one.
fn peel_one(protocol: &Protocol, left: &mut Vec<bool>, number: usize)
    requires well_formed { IsWellFormed protocol.now }
    requires size { length left.old.items ≡ length protocol.now.nodes }
    ensures size { length left.new.items ≡ length protocol.now.nodes }
    ensures unreached { (role : Role) → HasUnreached protocol.now role left.old.items → HasUnreached protocol.now role left.new.items }
    ensures fewer { (n : ℕ) → IsOn left.new.items n → IsOn left.old.items n }
{
    if number >= left.len() || !left[number] {
        return;
    }
    if leads_to_one(&protocol.nodes[number], left) {
        return;
    }
    left[number] = false;
}
