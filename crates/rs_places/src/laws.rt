//! What the definition of places says. The functions do nothing: each states a law.

ghost use Rattle.std.specs.Prelude.{◌≡◌, ℕ, List, Some, slice_get};
ghost use Rattle.rs_bodies.specs.Dialects.{state_by_mark};
ghost use Rattle.rs_bodies.specs.declared.dialects.Mark.{Mark};
ghost use Rattle.rs_documents.specs.Data.{Document_data};
ghost use Rattle.rs_documents.specs.Documents.{SpellsDocument};
ghost use Rattle.rs_model.specs.Data.{Machine_data};
ghost use Rattle.rs_model.specs.declared.graph.Arm.{Arm};
ghost use Rattle.rs_model.specs.declared.graph.Node.TheVariants as node;
ghost use Rattle.rs_model.specs.declared.graph.Role.{Role};
ghost use Rattle.rs_places.specs.declared.places.Position.{Position};
ghost use Rattle.rs_places.specs.Beginnings.{ActBegins, TalkBegins};
ghost use Rattle.rs_places.specs.Data.{Places_data};
ghost use Rattle.rs_places.specs.Places.{ArePlaces};

/// A text has one list of places: there are some, and no others.
pub fn one_list_of_places()
    ensures some { (bytes : List ℕ) (roles : List (List ℕ)) → (places : Places_data) × ArePlaces bytes roles places }
    ensures one { (bytes : List ℕ) (roles : List (List ℕ)) (these others : Places_data) → ArePlaces bytes roles these → ArePlaces bytes roles others → these ≡ others }
{}

/// In a text that spells a document each talk of its protocol has a place, where it stands.
pub fn talks_stand_at_their_places()
    ensures { (bytes : List ℕ) (document : Document_data) (places : Places_data) → SpellsDocument bytes document → ArePlaces bytes document.names.roles places
        → (n : ℕ) (sender receiver : Role) (arms : List Arm) → slice_get document.protocol.nodes n ≡ Some (node.Talk sender receiver arms)
        → (position : Position) × (slice_get places.talks n ≡ Some position) × TalkBegins bytes document.names.roles sender receiver position }
{}

/// Only the talks of the protocol have places there, so there are as many places as talks.
pub fn places_are_of_talks()
    ensures { (bytes : List ℕ) (document : Document_data) (places : Places_data) → SpellsDocument bytes document → ArePlaces bytes document.names.roles places
        → (n : ℕ) (position : Position) → slice_get places.talks n ≡ Some position
        → (sender : Role) × (receiver : Role) × (arms : List Arm) × (slice_get document.protocol.nodes n ≡ Some (node.Talk sender receiver arms)) }
{}

/// In a text that spells a document each act of its machines has a place, where it stands.
pub fn acts_stand_at_their_places()
    ensures { (bytes : List ℕ) (document : Document_data) (places : Places_data) → SpellsDocument bytes document → ArePlaces bytes document.names.roles places
        → (role : ℕ) (machine : Machine_data) → slice_get document.machines role ≡ Some (Some machine)
        → (n : ℕ) (mark : Mark) (peer : Role) (arms : List Arm) → slice_get machine.states n ≡ Some (state_by_mark mark peer arms)
        → (states : List Position) × (position : Position) × (slice_get places.machines role ≡ Some states) × (slice_get states n ≡ Some position)
        × ActBegins bytes document.names.roles n mark peer position }
{}
