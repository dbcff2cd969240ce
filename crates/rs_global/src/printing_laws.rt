//! What printed protocols say. The functions do nothing: each states a law.

ghost use Rattle.std.specs.Prelude.{◌≡◌, ◌≤◌, ◌+◌, ◌++◌, ℕ, List, drop, length, true};
ghost use Rattle.rs_model.specs.declared.limits.TheConstants.{MOST_TALKS};
ghost use Rattle.rs_model.specs.Data.{Names_data, Protocol_data};
ghost use Rattle.rs_text.specs.Lexing.{next_lexeme};
ghost use Rattle.rs_text.specs.Words.{is_role_word};
ghost use Rattle.rs_text.specs.Writing.{IsWritten};
ghost use Rattle.rs_global.specs.Canonical.{IsTextShaped};
ghost use Rattle.rs_global.specs.Enough.{AreEnough};
ghost use Rattle.rs_global.specs.Kinds.{graph_of, names_of};
ghost use Rattle.rs_global.specs.Trees.{Fits, ProtocolTree, protocol_signs};
ghost use Rattle.rs_global.specs.Spells.{SpellsProtocol};
ghost use Rattle.rs_global.specs.Texts.{protocol_text};
ghost use Rattle.rs_bodies.specs.declared.dialects.Dialect.TheVariants.{Talks};
ghost use Rattle.rs_bodies.specs.Places.{name_of_place};
ghost use Rattle.rs_bodies.specs.Trees.{ends_a_name, ends_by_name};
ghost use Rattle.rs_global.specs.Writable.{AreWords};

/// The text of a tree is written for its tokens, whatever stands behind it.
pub fn text_of_a_tree_is_written()
    ensures { (tree : ProtocolTree) (behind : List ℕ) → AreWords tree → IsWritten (protocol_signs tree) (protocol_text tree) behind }
{}

/// Where the text of a tree stands, the tree is spelt, as far as the next token. That is no arrow and not faulty, where
/// a recursion name ends the tree.
pub fn text_of_a_tree_spells_it()
    ensures { (bytes : List ℕ) (at : ℕ) (tree : ProtocolTree) (behind : List ℕ) → AreWords tree → Fits tree → drop at bytes ≡ protocol_text tree ++ behind
        → (ends_by_name Talks tree.body ≡ true → ends_a_name Talks (next_lexeme bytes (at + length (protocol_text tree))).sign ≡ true)
        → SpellsProtocol bytes at (names_of tree) (graph_of tree) (next_lexeme bytes (at + length (protocol_text tree))).from }
{}

/// A text that is the tree's alone spells it as far as its end.
pub fn lone_text_of_a_tree_spells_it()
    ensures { (tree : ProtocolTree) → AreWords tree → Fits tree → SpellsProtocol (protocol_text tree) 0 (names_of tree) (graph_of tree) (length (protocol_text tree)) }
{}

/// The name of a node can be a recursion name.
pub fn node_name_is_a_word()
    ensures { (n : ℕ) → n ≤ MOST_TALKS → is_role_word (name_of_place n) ≡ true }
{}

/// A protocol that a text spells is text-shaped.
pub fn spelt_protocol_is_text_shaped()
    ensures { (bytes : List ℕ) (at : ℕ) (names : Names_data) (protocol : Protocol_data) (until : ℕ) → SpellsProtocol bytes at names protocol until → IsTextShaped protocol }
{}

/// The names of a protocol that a text spells are enough to print it.
pub fn spelt_names_are_enough()
    ensures { (bytes : List ℕ) (at : ℕ) (names : Names_data) (protocol : Protocol_data) (until : ℕ) → SpellsProtocol bytes at names protocol until → AreEnough names protocol }
{}
