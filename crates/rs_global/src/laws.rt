//! What the definitions of reading say together. The functions do nothing: each states a law.

ghost use Rattle.std.specs.Prelude.{◌≡◌, ◌≤◌, ◌∷◌, [], ℕ, List, Result, length};
ghost use Rattle.rs_text.specs.declared.faults.TextFault.{TextFault};
ghost use Rattle.rs_text.specs.declared.faults.TextKind.TheVariants as kind;
ghost use Rattle.rs_text.specs.declared.faults.Wanted.TheVariants as wanted;
ghost use Rattle.rs_global.specs.Examples.{text, tree};
ghost use Rattle.rs_global.specs.Answers.{ProtocolAnswer, ReadsAs};
ghost use Rattle.rs_global.specs.Faults.{FirstFault};
ghost use Rattle.rs_global.specs.Kinds.{graph_of, names_of};
ghost use Rattle.rs_global.specs.Spells.{SpellsProtocol};
ghost use Rattle.rs_model.specs.declared.graph.Node.TheVariants as node;
ghost use Rattle.rs_model.specs.declared.values.Sort.TheVariants as sort;

/// The bytes of a text from an offset on are read as something.
pub fn has_an_answer()
    ensures { (bytes : List ℕ) (at : ℕ) → at ≤ length bytes → (answer : Result ProtocolAnswer TextFault) × ReadsAs bytes at answer }
{}

/// They are read as nothing else: as one protocol or with one fault, never both.
pub fn has_one_answer()
    ensures { (bytes : List ℕ) (at : ℕ) (x y : Result ProtocolAnswer TextFault) → at ≤ length bytes → ReadsAs bytes at x → ReadsAs bytes at y → x ≡ y }
{}

/// A text is spelt as its tree says, and goes on at its end.
pub fn example_is_spelt()
    ensures tree { SpellsProtocol text 0 (names_of tree) (graph_of tree) 51 }
    ensures nodes { (graph_of tree).nodes ≡ node.Talk (record { 0 = 0 }) (record { 0 = 1 })
        (record { label = record { 0 = 0 }; sort = sort.Unit; next = 0 } ∷ record { label = record { 0 = 1 }; sort = sort.Natural; next = 1 } ∷ []) ∷ node.Finished ∷ [] }
    ensures root { (graph_of tree).root ≡ 0 }
{}

/// The first fault of no bytes is that `roles` was wanted there.
pub fn no_bytes_lack_roles()
    ensures { FirstFault [] 0 (kind.Expected wanted.Roles) 0 }
{}
