//! Recursion names that are bound, and the numbers that they lead to.

ghost use Rattle.std.specs.Prelude.{◌≡◌, ◌-◌, length, drop, reverse};
ghost use Rattle.rs_text.specs.Names.{nearest_binding};

use crate::names::is_same;
use std::marker::Model;

/// A recursion name, and the number of what its body begins with.
#[derive(Drop)]
pub struct Binding<'a> {
    pub name: &'a [u8],
    pub number: u32,
}

impl<'a> Model for Binding<'a> {
    ghost use Rattle.std.specs.Prelude.{ℕ, List};

    ghost Value = { List ℕ × ℕ };

    ghost view = { λ b. (b.name.now, b.number) };
}

/// The number that the name is bound to by the nearest of the bindings, which is the last one.
pub fn bound_number(bindings: &[Binding], name: &[u8]) -> Option<u32>
    ensures { result ≡ nearest_binding name.now (reverse bindings.now) }
{
    let mut left = bindings.len();
    while left > 0 {
        left -= 1;
        let binding = &bindings[left];
        if is_same(binding.name, name) {
            return Some(binding.number);
        }
    }
    None
}

/// Lets go of all bindings but the first ones, as many as `left` says.
#[tactic(auto, using(crate::proofs::Bindings::cut_short))]
pub fn unbind<'a>(bindings: &mut Vec<Binding<'a>>, left: usize)
    ensures { reverse bindings.new.items ≡ drop (length (reverse bindings.old.items) - left) (reverse bindings.old.items) }
{
    bindings.truncate(left);
}
