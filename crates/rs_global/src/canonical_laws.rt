//! What the definitions of canonical texts say together. The functions do nothing: each states a law.

ghost use Rattle.std.specs.Prelude.{◌≡◌, ◌<◌, ℕ, List, Some, length, slice_get};
ghost use Rattle.rs_model.specs.Data.{Names_data, Protocol_data};
ghost use Rattle.rs_model.specs.declared.graph.Arm.{Arm};
ghost use Rattle.rs_model.specs.declared.graph.Node.TheVariants.{Talk};
ghost use Rattle.rs_model.specs.declared.graph.Role.{Role};
ghost use Rattle.rs_text.specs.Sound.{IsSound};
ghost use Rattle.rs_global.specs.Canonical.{IsCanonicalProtocolTree, IsCanonicalProtocolText, IsTextShaped, with_first_labels};
ghost use Rattle.rs_global.specs.Enough.{AreEnough};
ghost use Rattle.rs_global.specs.Kinds.{graph_of, names_of};
ghost use Rattle.rs_global.specs.Trees.{Fits, ProtocolTree};
ghost use Rattle.rs_global.specs.Spells.{SpellsProtocol};
ghost use Rattle.rs_global.specs.Writable.{AreWords};

/// A protocol that some text spells has a canonical tree, for names that are enough.
pub fn canonical_is_there()
    ensures { (names : Names_data) (protocol : Protocol_data) → IsTextShaped protocol → length names.roles ≡ protocol.roles
        → ((n place : ℕ) (sender receiver : Role) (arms : List Arm) (arm : Arm) → slice_get protocol.nodes n ≡ Some (Talk sender receiver arms) → slice_get arms place ≡ Some arm
        → arm.label.0 < length names.labels) → (tree : ProtocolTree) × IsCanonicalProtocolTree names protocol tree }
{}

/// A protocol that some text spells has one canonical tree at most.
pub fn canonical_tree_is_one()
    ensures { (names : Names_data) (protocol : Protocol_data) (x y : ProtocolTree) → IsTextShaped protocol → IsCanonicalProtocolTree names protocol x
        → IsCanonicalProtocolTree names protocol y → x ≡ y }
{}

/// A protocol that some text spells has one canonical text at most.
pub fn canonical_text_is_one()
    ensures { (names : Names_data) (protocol : Protocol_data) (text other : List ℕ) → IsTextShaped protocol → IsCanonicalProtocolText names protocol text → IsCanonicalProtocolText names protocol other
        → text ≡ other }
{}

/// The canonical tree has names that can be written.
pub fn canonical_names_are_words()
    ensures { (names : Names_data) (protocol : Protocol_data) (tree : ProtocolTree) → IsTextShaped protocol → IsSound names → AreEnough names protocol → IsCanonicalProtocolTree names protocol tree
        → AreWords tree }
{}

/// The canonical tree is within the limits of texts.
pub fn canonical_tree_fits()
    ensures { (names : Names_data) (protocol : Protocol_data) (tree : ProtocolTree) → IsTextShaped protocol → IsSound names → AreEnough names protocol
        → IsCanonicalProtocolTree names protocol tree → Fits tree }
{}

/// The canonical tree spells the protocol again.
pub fn canonical_tree_spells_the_protocol()
    ensures { (names : Names_data) (protocol : Protocol_data) (tree : ProtocolTree) → IsTextShaped protocol → IsSound names → AreEnough names protocol → IsCanonicalProtocolTree names protocol tree
        → graph_of tree ≡ protocol }
{}

/// The canonical tree has the same roles and the first of the labels.
pub fn canonical_tree_has_the_first_labels()
    ensures { (names : Names_data) (protocol : Protocol_data) (tree : ProtocolTree) → IsTextShaped protocol → IsSound names → AreEnough names protocol → IsCanonicalProtocolTree names protocol tree
        → names_of tree ≡ with_first_labels (length (names_of tree).labels) names }
{}

/// A printed text is read again as the same protocol, with the labels that it has.
pub fn printed_text_is_read_again()
    ensures { (names : Names_data) (protocol : Protocol_data) (text : List ℕ) → IsTextShaped protocol → IsSound names → AreEnough names protocol → IsCanonicalProtocolText names protocol text
        → (labels : ℕ) × SpellsProtocol text 0 (with_first_labels labels names) protocol (length text) }
{}

/// What is read from a printed text is printed as that text again.
pub fn printed_text_is_printed_again()
    ensures { (names others : Names_data) (protocol other : Protocol_data) (text : List ℕ) (until : ℕ) → IsTextShaped protocol → IsSound names → AreEnough names protocol
        → IsCanonicalProtocolText names protocol text → SpellsProtocol text 0 others other until → IsCanonicalProtocolText others other text }
{}
