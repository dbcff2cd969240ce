//! Laws over the definitions that the contracts cite. The functions do nothing: the contract is the law.
ghost use Rattle.std.specs.Prelude.{[], ◌≡◌, ◌≢◌, ◌<◌, ◌≤◌, ℕ, List, length, Bool, false, slice_get, Some, true};
ghost use Rattle.rs_derive.specs.Data.{Derivation_data};
ghost use Rattle.rs_derive.specs.Derivations.{IsDerivation, IsProper};
ghost use Rattle.rs_derive.specs.Moves.{Spot};
ghost use Rattle.rs_explain.specs.Explanations.{AGreaterBoundHelps, Explanation_data, IsExplanation};
ghost use Rattle.rs_explain.specs.Forgetting.{Forgetting_data, IsForgetting};
ghost use Rattle.rs_explain.specs.Obstacles.{HasNoMove, IsObstacle};
ghost use Rattle.rs_explain.specs.Forcing.{is_forced};
ghost use Rattle.rs_explain.specs.Growth.{grows_for_ever};
ghost use Rattle.rs_explain.specs.Walks.{DiesAfter, DiesWithin, IsDeadEnd, IsDyingStep, IsDyingWalk, IsFirstCutWalk, IsForced, IsWalk, LeadsBy, WalkStep_data, end_of};
ghost use Rattle.rs_explain.specs.declared.explaining.Ending.TheVariants.{Blocked, Cut};
ghost use Rattle.rs_explain.specs.declared.obstacles.Obstacle.{Obstacle};
ghost use Rattle.rs_explain.specs.declared.obstacles.Obstacle.TheVariants.{EndTooEarly};
ghost use Rattle.rs_graph.specs.Lists.{Among};
ghost use Rattle.rs_model.specs.Data.{Machine_data};
ghost use Rattle.rs_model.specs.declared.machines.Act.{Act};
ghost use Rattle.rs_model.specs.declared.limits.TheConstants.{MOST_CANDIDATES};
ghost use Rattle.rs_search.specs.Candidates.{AreMoreThan, MoveWithin, start_spot};
ghost use Rattle.rs_search.specs.Canonical.{IsCanonical, IsForgets, IsNotFound};
ghost use Rattle.rs_search.specs.Survives.{Survives};
ghost use Rattle.rs_search.specs.Examples.{ended_machine, waiting};

/// Exactly where a spot has no move there is an obstacle, and one only. The spot stands at states of both machines, and
/// the projection is well formed.
pub fn one_obstacle_where_no_move()
    ensures one { (sub above : Machine_data) (p : Spot) (o other : Obstacle) → IsObstacle sub above p o → IsObstacle sub above p other → o ≡ other }
    ensures none { (sub above : Machine_data) (p : Spot) (o : Obstacle) → IsObstacle sub above p o → HasNoMove sub above p }
    ensures some { (sub above : Machine_data) (p : Spot) → IsProper above → p.state < length sub.states → p.above < length above.states → HasNoMove sub above p
        → (o : Obstacle) × IsObstacle sub above p o }
{}

/// A step leads to a result of a move within the bound.
pub fn steps_are_moves()
    ensures { (sub above : Machine_data) (bound : ℕ) (p : Spot) (place : ℕ) (q : Spot) → LeadsBy sub above bound p place q
        → (results : List Spot) × MoveWithin sub above bound p results × Among results q }
{}

/// What dies within some moves doesn't survive: `DiesWithin` is the proof. And where the candidates number no more than the
/// limit, the start dies within some moves if it doesn't survive.
pub fn what_does_not_survive_dies_within_some_moves()
    ensures lost { (sub above : Machine_data) (bound n : ℕ) (p : Spot) → DiesWithin sub above bound n p → Survives sub above bound p → ⊥ }
    ensures some { (sub above : Machine_data) (bound : ℕ) → (AreMoreThan sub above bound MOST_CANDIDATES → ⊥) → (Survives sub above bound (start_spot sub above) → ⊥)
        → (n : ℕ) × DiesWithin sub above bound n (start_spot sub above) }
{}

/// The walk along which a spot dies is as long as the moves after which it dies, and there is one only. A step of it goes to
/// a result that dies as soon as any of its move, and each other move has a result that dies as soon as it: so of guesses it
/// takes one that dies latest.
pub fn one_walk_along_which_a_spot_dies()
    ensures some { (sub above : Machine_data) (bound n : ℕ) (p : Spot) → DiesWithin sub above bound n p → (steps : List WalkStep_data) × IsDyingWalk sub above bound p steps }
    ensures one { (sub above : Machine_data) (bound : ℕ) (p : Spot) (steps others : List WalkStep_data) → IsDyingWalk sub above bound p steps
        → IsDyingWalk sub above bound p others → steps ≡ others }
    ensures length { (sub above : Machine_data) (bound : ℕ) (p : Spot) (steps : List WalkStep_data) → IsDyingWalk sub above bound p steps → DiesAfter sub above bound (length steps) p }
    ensures ends { (sub above : Machine_data) (bound : ℕ) (p : Spot) (steps : List WalkStep_data) → IsDyingWalk sub above bound p steps → IsDeadEnd sub above bound (end_of p steps) }
    ensures soonest { (sub above : Machine_data) (bound left : ℕ) (p : Spot) (s : WalkStep_data) (results : List Spot) (r : Spot) (m : ℕ) → IsDyingStep sub above bound left p s
        → MoveWithin sub above bound p results → Among results s.spot → Among results r → DiesWithin sub above bound m r → left ≤ m }
    ensures latest { (sub above : Machine_data) (bound left : ℕ) (p : Spot) (s : WalkStep_data) (results : List Spot) → IsDyingStep sub above bound left p s
        → MoveWithin sub above bound p results → (r : Spot) × Among results r × DiesWithin sub above bound left r }
{}

/// Where the search finds none, the start dies along a walk to a spot that has no move within the bound. So there is an
/// explanation, and there is one only; where no candidate meets a cut, its walk doesn't end at one.
pub fn one_explanation_where_not_found()
    ensures walk { (sub above : Machine_data) (bound : ℕ) (cut : Bool) → IsNotFound sub above bound cut
        → (steps : List WalkStep_data) × IsDyingWalk sub above bound (start_spot sub above) steps }
    ensures some { (sub above : Machine_data) (bound : ℕ) (cut : Bool) → IsProper sub → IsProper above → IsNotFound sub above bound cut
        → (e : Explanation_data) × IsExplanation sub above bound e }
    ensures one { (sub above : Machine_data) (bound : ℕ) (e other : Explanation_data) → IsExplanation sub above bound e → IsExplanation sub above bound other → e ≡ other }
    ensures uncut { (sub above : Machine_data) (bound : ℕ) (e : Explanation_data) → IsNotFound sub above bound false → IsExplanation sub above bound e → e.ending ≢ Cut }
{}

/// Where the start survives within a greater bound only, a walk leads from it to a spot that meets a cut, and there is one
/// first such walk. Each spot of it dies within the bound and survives within the greater one, so that it leads nowhere that
/// the greater bound doesn't mend. A greater bound helps where the search finds a derivation within it.
pub fn one_cut_walk_where_a_greater_bound_helps()
    ensures some { (sub above : Machine_data) (bound greater : ℕ) (cut : Bool) → IsNotFound sub above bound cut → AGreaterBoundHelps sub above bound greater
        → (steps : List WalkStep_data) × IsFirstCutWalk sub above bound greater (start_spot sub above) steps }
    ensures one { (sub above : Machine_data) (bound greater : ℕ) (steps others : List WalkStep_data) → IsFirstCutWalk sub above bound greater (start_spot sub above) steps
        → IsFirstCutWalk sub above bound greater (start_spot sub above) others → steps ≡ others }
    ensures mends { (sub above : Machine_data) (bound greater : ℕ) (steps : List WalkStep_data) (i : ℕ) (s : WalkStep_data) → IsFirstCutWalk sub above bound greater (start_spot sub above) steps
        → slice_get steps i ≡ Some s → (Survives sub above bound s.spot → ⊥) × Survives sub above greater s.spot }
    ensures helps { (sub above : Machine_data) (bound greater : ℕ) (d : Derivation_data) → bound ≤ greater → IsCanonical sub above greater d → AGreaterBoundHelps sub above bound greater }
{}

/// Where the canonical derivation forgets an act that is owed there is a first way round on which it is never made, and one
/// only.
pub fn one_way_round_where_it_forgets()
    ensures some { (sub above : Machine_data) (bound node : ℕ) → IsForgets sub above bound node → (f : Forgetting_data) × IsForgetting sub above bound node f }
    ensures one { (sub above : Machine_data) (bound node : ℕ) (f other : Forgetting_data) → IsForgetting sub above bound node f → IsForgetting sub above bound node other → f ≡ other }
{}

/// An act is owed where a way round begins, and on the whole way the oldest act stays the same, so it is never made.
pub fn the_oldest_act_is_never_made()
    ensures owed { (sub above : Machine_data) (bound node : ℕ) (f : Forgetting_data) → IsForgetting sub above bound node f → (a : Act) × (slice_get f.spot.pending 0 ≡ Some a) }
    ensures stays { (sub above : Machine_data) (bound node : ℕ) (f : Forgetting_data) → IsForgetting sub above bound node f → (i : ℕ) (s : WalkStep_data) → slice_get f.steps i ≡ Some s
        → slice_get s.spot.pending 0 ≡ slice_get f.spot.pending 0 }
{}

/// Where there is an explanation there is no derivation within the bound, since the start dies within as many moves as its
/// walk has steps. A walk that no other move leaves, to a spot that has no move, shows more: where there is such a walk there
/// is no derivation of whatever bound.
pub fn explanations_certify()
    ensures within { (sub above : Machine_data) (bound : ℕ) (e : Explanation_data) (d : Derivation_data) → IsExplanation sub above bound e
        → IsDerivation d sub above → d.bound ≤ bound → ⊥ }
    ensures forced { (sub above : Machine_data) (steps : List WalkStep_data) (d : Derivation_data) → IsForced sub above (start_spot sub above) steps
        → HasNoMove sub above (end_of (start_spot sub above) steps) → IsDerivation d sub above → ⊥ }
{}

/// A walk without a guess among several arms is forced: whichever move a spot of it makes, it leads to the next spot, too.
/// What `explanations_certify` says of forced walks holds of it.
pub fn forced_walks_have_no_other_way()
    ensures { (sub above : Machine_data) (bound : ℕ) (p : Spot) (steps : List WalkStep_data) → IsWalk sub above bound p steps → is_forced sub above p steps ≡ true → IsForced sub above p steps }
{}

/// A forced walk that ends with a round by which the machine owes more, and of which it needs one act alone, can be repeated
/// whatever is owed: each time more is. So there is no derivation of whatever bound.
pub fn no_bound_is_enough_for_a_round_that_grows()
    ensures { (sub above : Machine_data) (bound : ℕ) (steps : List WalkStep_data) (d : Derivation_data) → IsWalk sub above bound (start_spot sub above) steps
        → is_forced sub above (start_spot sub above) steps ≡ true → grows_for_ever sub (start_spot sub above) steps ≡ true → IsDerivation d sub above → ⊥ }
{}

/// A machine that has ended, while its projection waits for a message, has an explanation: it ends too early, at the start.
pub fn an_early_end_is_explained()
    ensures { (bound : ℕ) → IsExplanation ended_machine waiting bound (record { steps = []; ending = Blocked EndTooEarly }) }
{}
