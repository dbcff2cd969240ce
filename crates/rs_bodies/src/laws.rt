//! What a text spells is what the reader gives, and what it refuses has a first fault, in either dialect. The functions do
//! nothing: each states a law.

ghost use Rattle.std.specs.Prelude.{◌≡◌, ◌≤◌, ◌⊎◌, ℕ, List, length, Ok, Err};
ghost use Rattle.rs_model.specs.Data.{Names_data};
ghost use Rattle.rs_text.specs.declared.faults.TextFault.{TextFault};
ghost use Rattle.rs_text.specs.declared.faults.TextKind.{TextKind};
ghost use Rattle.rs_text.specs.declared.faults.TextKind.TheVariants as kind;
ghost use Rattle.rs_text.specs.declared.faults.Wanted.{Wanted};
ghost use Rattle.rs_text.specs.Lexemes.{signs_of};
ghost use Rattle.rs_model.specs.declared.limits.TheConstants.{MOST_LABELS, MOST_ROLES};
ghost use Rattle.rs_bodies.specs.declared.dialects.Dialect.{Dialect};
ghost use Rattle.rs_bodies.specs.declared.places.Place.{Place};
ghost use Rattle.rs_bodies.specs.Bodied.{HasBody, SpellsPlaces};
ghost use Rattle.rs_bodies.specs.Data.{Spelling_data};
ghost use Rattle.rs_bodies.specs.Faults.{Begins, FirstFault, IsUnexpected};
ghost use Rattle.rs_bodies.specs.Feeding.{PartAnswer, ReadsAs};
ghost use Rattle.rs_bodies.specs.Leads.{LeadsInside};
ghost use Rattle.rs_bodies.specs.Spellings.{Spells};
ghost use Rattle.rs_bodies.specs.Trees.{Body};

/// Whatever is read from a text, the text spells it.
pub fn read_text_is_spelt()
    ensures { (d : Dialect) (old : Names_data) (bytes : List ℕ) (at : ℕ) (answer : PartAnswer) → at ≤ length bytes → ReadsAs d old bytes at (Ok answer)
        → Spells d bytes at old answer.names answer.spelling answer.until }
{}

/// Whatever a text spells is read from it.
pub fn spelling_is_read()
    ensures { (d : Dialect) (old : Names_data) (bytes : List ℕ) (at : ℕ) (names : Names_data) (spelling : Spelling_data) (until : ℕ) → Spells d bytes at old names spelling until
        → ReadsAs d old bytes at (Ok (record { names = names; spelling = spelling; until = until })) }
{}

/// A text spells one part at most, by one list of names, as far as one offset.
pub fn text_spells_one_part()
    ensures { (d : Dialect) (old : Names_data) (bytes : List ℕ) (at : ℕ) (names others : Names_data) (spelling other : Spelling_data) (until stop : ℕ) → Spells d bytes at old names spelling until
        → Spells d bytes at old others other stop → (names ≡ others) × (spelling ≡ other) × (until ≡ stop) }
{}

/// Every text spells a part or has a first fault.
pub fn text_is_spelt_or_has_a_fault()
    ensures { (d : Dialect) (old : Names_data) (bytes : List ℕ) (at : ℕ) → at ≤ length bytes
        → ((names : Names_data) × (spelling : Spelling_data) × (until : ℕ) × Spells d bytes at old names spelling until) ⊎ ((kind : TextKind) × (offset : ℕ) × FirstFault d old bytes at kind offset) }
{}

/// A text that spells a part has no first fault.
pub fn spelt_text_has_no_fault()
    ensures { (d : Dialect) (old : Names_data) (bytes : List ℕ) (at : ℕ) (names : Names_data) (spelling : Spelling_data) (until : ℕ) (kind : TextKind) (offset : ℕ)
        → Spells d bytes at old names spelling until → FirstFault d old bytes at kind offset → ⊥ }
{}

/// Whatever fault the reader tells is the first fault of the text.
pub fn told_fault_is_the_first()
    ensures { (d : Dialect) (old : Names_data) (bytes : List ℕ) (at : ℕ) (fault : TextFault) → at ≤ length bytes → ReadsAs d old bytes at (Err fault) → FirstFault d old bytes at fault.kind fault.at }
{}

/// The first fault of a text is told.
pub fn first_fault_is_told()
    ensures { (d : Dialect) (old : Names_data) (bytes : List ℕ) (at : ℕ) (kind : TextKind) (offset : ℕ) → FirstFault d old bytes at kind offset
        → ReadsAs d old bytes at (Err (record { kind = kind; at = offset })) }
{}

/// A text has one first fault at most.
pub fn text_has_one_first_fault()
    ensures { (d : Dialect) (old : Names_data) (bytes : List ℕ) (at : ℕ) (kind other : TextKind) (offset place : ℕ) → FirstFault d old bytes at kind offset → FirstFault d old bytes at other place
        → (kind ≡ other) × (offset ≡ place) }
{}

/// The tokens before the first fault begin a part.
pub fn tokens_before_the_fault_begin_a_part()
    ensures { (d : Dialect) (old : Names_data) (bytes : List ℕ) (at : ℕ) (kind : TextKind) (offset : ℕ) (fault : FirstFault d old bytes at kind offset) → Begins d (signs_of fault.before) }
{}

/// Where another token is expected, the tokens up to that one begin a part and with it they begin none, and what is wanted
/// is what its place wants.
pub fn expected_is_unexpected()
    ensures { (d : Dialect) (old : Names_data) (bytes : List ℕ) (at : ℕ) (wanted : Wanted) (offset : ℕ) (fault : FirstFault d old bytes at (kind.Expected wanted) offset)
        → IsUnexpected d (signs_of fault.before) fault.token.sign wanted }
{}

/// What a text spells leads to its own places: its heads have known roles and some arms, and every arm leads to a head or to
/// the end.
pub fn spelt_parts_lead_inside()
    ensures { (d : Dialect) (bytes : List ℕ) (at : ℕ) (old new : Names_data) (spelling : Spelling_data) (until : ℕ) → Spells d bytes at old new spelling until
        → LeadsInside (length new.roles) spelling }
{}

/// What a body spells with some names before it, a body of words spells with any number of names that is no less.
pub fn spelt_graph_has_a_body()
    ensures { (d : Dialect) (old : Names_data) (b : Body d) (roles start labels : ℕ) (places : List Place) → length old.roles ≤ roles → length old.labels ≤ labels → roles ≤ MOST_ROLES
        → labels ≤ MOST_LABELS → SpellsPlaces d old b places start → HasBody d roles labels places start }
{}
