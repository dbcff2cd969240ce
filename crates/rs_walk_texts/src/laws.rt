//! Laws over the definitions that the contracts cite. The functions do nothing: the contract is the law.
ghost use Rattle.std.specs.Prelude.{◌≡◌, ◌≢◌, ℕ, slice_get, List, Option, Some, None};
ghost use Rattle.rs_model.specs.declared.graph.Label.{Label};
ghost use Rattle.rs_project.specs.Graph.{Involves, MeetsFirst};
ghost use Rattle.rs_walk_texts.specs.OneWay.{meeting};
ghost use Rattle.rs_walk_texts.specs.Owing.{talks_owed};
ghost use Rattle.rs_walk_texts.specs.Passed.{first_flagged, passed_talk, talks_of};
ghost use Rattle.rs_walk_texts.specs.Walks.{talks_along};
ghost use Rattle.rs_walk_texts.specs.declared.passed.TalkArm.{TalkArm};
ghost use Rattle.rs_derive.specs.Moves.{Spot};
ghost use Rattle.rs_explain.specs.Walks.{WalkStep_data};
ghost use Rattle.rs_explain.specs.declared.explaining.Ending.{Ending};
ghost use Rattle.rs_walk_texts.specs.Alike.{IsFirstOfLeast, nearest, pairs_at, slip_distance};
ghost use Rattle.rs_walk_texts.specs.Data.{WalkSource_data};
ghost use Rattle.rs_walk_texts.specs.declared.alike.LabelPair.{LabelPair};

/// Of the labels that may be meant by a misspelt one the first of the least distance is told, and one is told where there is
/// one.
pub fn the_nearest_label_is_told()
    ensures some { (source : WalkSource_data) (p : Spot) (ending : Ending) (pair : LabelPair) → nearest source p ending ≡ Some pair
        → IsFirstOfLeast (slip_distance source p) (pairs_at source p ending) pair }
    ensures none { (source : WalkSource_data) (p : Spot) (ending : Ending) (i : ℕ) (pair : LabelPair) → nearest source p ending ≡ None
        → slice_get (pairs_at source p ending) i ≡ Some pair → slip_distance source p pair ≡ None }
{}

/// Two talks that a walk passes one after the other lie on one way of the protocol: behind the first one, by its arm, the role
/// may meet the second one first. So it is wherever some talk with that label for which the projection's state stands leads to
/// the second one.
pub fn talks_of_a_walk_lie_on_one_way()
    ensures { (source : WalkSource_data) (above : ℕ) (label : Label) (next talk : TalkArm) → Involves source.protocol source.machine.role next.number
        → first_flagged source.protocol.nodes (meeting source.protocol.nodes source.machine.role next.number) label (talks_of source above) ≢ None
        → passed_talk source above label (Some next) ≡ Some talk → MeetsFirst source.protocol source.machine.role talk.arm.next next.number }
{}

/// After a walk, the talk behind an act that is owed is one of those that the walk passes, which lie on one way of the protocol
/// (`talks_of_a_walk_lie_on_one_way`).
pub fn what_is_owed_after_a_walk_was_passed()
    ensures { (source : WalkSource_data) (p : Spot) (steps : List WalkStep_data) (place : ℕ) (talk : Option TalkArm) → slice_get (talks_owed source p steps) place ≡ Some talk
        → (k : ℕ) × (slice_get (talks_along source p steps) k ≡ Some talk) }
{}
