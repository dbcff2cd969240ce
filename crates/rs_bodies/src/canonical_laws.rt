//! What the definitions of canonical bodies say together, in either dialect. The functions do nothing: each states a law.

ghost use Rattle.std.specs.Prelude.{◌≡◌, ◌<◌, ◌≤◌, ◌+◌, ◌++◌, ℕ, List, Some, drop, length, slice_get, true};
ghost use Rattle.rs_model.specs.Data.{Names_data};
ghost use Rattle.rs_model.specs.declared.limits.TheConstants.{MOST_TALKS};
ghost use Rattle.rs_text.specs.Lexing.{next_lexeme};
ghost use Rattle.rs_text.specs.Names.{is_among};
ghost use Rattle.rs_text.specs.Words.{is_role_word};
ghost use Rattle.rs_text.specs.Writing.{IsWritten};
ghost use Rattle.rs_bodies.specs.declared.dialects.Dialect.{Dialect};
ghost use Rattle.rs_bodies.specs.declared.places.Place.{Place};
ghost use Rattle.rs_bodies.specs.Canonical.{Draws, HaveNames, IsSpelt};
ghost use Rattle.rs_bodies.specs.Graph.{labels_of};
ghost use Rattle.rs_bodies.specs.Places.{name_of_place};
ghost use Rattle.rs_bodies.specs.Spells.{Fits, Tree, names_of, tree_signs};
ghost use Rattle.rs_bodies.specs.Spellings.{Spells, spelling_of};
ghost use Rattle.rs_bodies.specs.Texts.{part_text};
ghost use Rattle.rs_bodies.specs.Trees.{Body, ends_a_name, ends_by_name};
ghost use Rattle.rs_bodies.specs.Writable.{AreWords};

/// A graph that some part spells has a canonical body, for names that are there.
pub fn canonical_body_is_there()
    ensures { (d : Dialect) (names : Names_data) (places : List Place) (root : ℕ) → IsSpelt d places root → HaveNames names places → (body : Body d) × Draws d names places 0 root body }
{}

/// A graph that some part spells has one canonical body at most.
pub fn canonical_body_is_one()
    ensures { (d : Dialect) (names : Names_data) (places : List Place) (root : ℕ) (x y : Body d) → IsSpelt d places root → Draws d names places 0 root x → Draws d names places 0 root y → x ≡ y }
{}

/// The text of a part is written for its tokens, whatever stands behind it.
pub fn text_of_a_part_is_written()
    ensures { (d : Dialect) (tree : Tree d) (behind : List ℕ) → AreWords d tree → IsWritten (tree_signs d tree) (part_text d tree) behind }
{}

/// Where the text of a part stands, the part is spelt, as far as the next token. That is no arrow or mark and not faulty,
/// where a recursion name ends the part.
pub fn text_of_a_part_spells_it()
    ensures { (d : Dialect) (bytes : List ℕ) (at : ℕ) (old : Names_data) (tree : Tree d) (behind : List ℕ) → AreWords d tree → Fits d old tree → drop at bytes ≡ part_text d tree ++ behind
        → (ends_by_name d tree.body ≡ true → ends_a_name d (next_lexeme bytes (at + length (part_text d tree))).sign ≡ true)
        → Spells d bytes at old (names_of d old tree) (spelling_of d old tree) (next_lexeme bytes (at + length (part_text d tree))).from }
{}

/// The name of a place can be a recursion name.
pub fn place_name_is_a_word()
    ensures { (n : ℕ) → n ≤ MOST_TALKS → is_role_word (name_of_place n) ≡ true }
{}

/// A canonical body is one by names with other labels too, where its labels have the numbers that they had.
pub fn canonical_body_stays()
    ensures { (d : Dialect) (names : Names_data) (others : List (List ℕ)) (places : List Place) (root : ℕ) (body : Body d)
        → ((l : List ℕ) (i : ℕ) → is_among l (labels_of d body) ≡ true → slice_get names.labels i ≡ Some l → slice_get others i ≡ Some l) → Draws d names places 0 root body
        → Draws d (record { roles = names.roles; labels = others }) places 0 root body }
{}

/// The names that a tree spells are enough for its graph.
pub fn spelt_names_are_there()
    ensures { (d : Dialect) (places : List Place) (root : ℕ) (spelt : IsSpelt d places root) → 0 < length spelt.new.roles → HaveNames spelt.new places }
{}
