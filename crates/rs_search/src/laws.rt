//! Laws over the definitions that the contracts cite. The functions do nothing: the contract is the law.
ghost use Rattle.std.specs.Prelude.{◌≡◌, ◌≢◌, ◌⊎◌, ◌↔◌, ◌≤◌, ℕ, List, length, Bool, false, None};
ghost use Rattle.rs_model.specs.Data.{Machine_data};
ghost use Rattle.rs_model.specs.declared.limits.TheConstants.{MOST_CANDIDATES};
ghost use Rattle.rs_derive.specs.Data.{Derivation_data};
ghost use Rattle.rs_derive.specs.Derivations.{IsDerivation, IsProper, Remembers};
ghost use Rattle.rs_derive.specs.Faults.{first_fault};
ghost use Rattle.rs_derive.specs.Moves.{Spot};
ghost use Rattle.rs_search.specs.Candidates.{AreMoreThan, IsCandidate, start_spot};
ghost use Rattle.rs_search.specs.Canonical.{CanFollow, HasCanonicalNodes, IsCanonical, IsDerivable, IsForgetful, IsNotFound, SearchRefuses, SomeCut};
ghost use Rattle.rs_search.specs.Costs.{AreMovesWithin};
ghost use Rattle.rs_graph.specs.Lists.{concat};
ghost use Rattle.rs_search.specs.Turns.{nexts_within};
ghost use Rattle.rs_search.specs.Examples.{ended_machine, waiting};
ghost use Rattle.rs_search.specs.Survives.{Survives};
ghost use Rattle.rs_search.specs.declared.faults.SearchFault.{SearchFault};
ghost use Rattle.rs_search.specs.declared.faults.SearchFault.TheVariants.{NoMemory, TooLarge};

/// What the search answers is a derivation that forgets nothing, and passes each test of one.
pub fn answers_are_accepted()
    ensures derivation { (sub above : Machine_data) (bound : ℕ) (d : Derivation_data) → IsProper sub → IsProper above → IsCanonical sub above bound d → IsDerivation d sub above }
    ensures remembers { (sub above : Machine_data) (bound : ℕ) (d : Derivation_data) → IsCanonical sub above bound d → Remembers d sub above }
    ensures none { (sub above : Machine_data) (bound : ℕ) (d : Derivation_data) → IsProper sub → IsProper above → IsCanonical sub above bound d → first_fault d sub above ≡ None }
{}

/// For the same machines and bound there is one answer at most, and a derivation that is found has no more nodes than
/// there may be candidates.
pub fn answers_are_one()
    ensures derivation { (sub above : Machine_data) (bound : ℕ) (d e : Derivation_data) → IsCanonical sub above bound d → IsCanonical sub above bound e → d ≡ e }
    ensures fault { (sub above : Machine_data) (bound : ℕ) (f g : SearchFault) → f ≢ NoMemory → g ≢ NoMemory → SearchRefuses sub above bound f → SearchRefuses sub above bound g → f ≡ g }
    ensures either { (sub above : Machine_data) (bound : ℕ) (d : Derivation_data) (f : SearchFault) → IsCanonical sub above bound d → SearchRefuses sub above bound f → f ≡ NoMemory }
    ensures bounded { (sub above : Machine_data) (bound : ℕ) (d : Derivation_data) → IsCanonical sub above bound d → length d.nodes ≤ MOST_CANDIDATES }
{}

/// The start is a candidate, and no candidate owes more than the bound. The start survives if a canonical derivation
/// begins there, as it does for two machines that have ended; it doesn't if it has no move.
pub fn survivors_are_some()
    ensures start { (sub above : Machine_data) (bound : ℕ) → IsCandidate sub above bound (start_spot sub above) }
    ensures short { (sub above : Machine_data) (bound : ℕ) (p : Spot) → IsCandidate sub above bound p → length p.pending ≤ bound }
    ensures canonical { (sub above : Machine_data) (bound : ℕ) (d : Derivation_data) → HasCanonicalNodes sub above bound d → Survives sub above bound (start_spot sub above) }
    ensures ended { (bound : ℕ) → Survives ended_machine ended_machine bound (start_spot ended_machine ended_machine) }
    ensures stuck { (bound : ℕ) → Survives ended_machine waiting bound (start_spot ended_machine waiting) → ⊥ }
{}

/// Two well-formed machines have a canonical derivation within a bound, or there is a reason why they have none.
pub fn a_derivation_or_a_refusal()
    ensures { (sub above : Machine_data) (bound : ℕ) → IsProper sub → IsProper above
        → ((d : Derivation_data) × IsCanonical sub above bound d) ⊎ ((fault : SearchFault) × (fault ≢ NoMemory) × SearchRefuses sub above bound fault) }
{}

/// Two well-formed machines have a canonical derivation if and only if there aren't too many candidates, the start
/// survives, and nothing is forgotten.
pub fn a_derivation_where_the_start_survives()
    ensures { (sub above : Machine_data) (bound : ℕ) → IsProper sub → IsProper above
        → ((d : Derivation_data) × IsCanonical sub above bound d)
        ↔ ((AreMoreThan sub above bound MOST_CANDIDATES → ⊥) × Survives sub above bound (start_spot sub above) × (IsForgetful sub above bound → ⊥)) }
{}

/// No derivation is missed: if there is one within the bound, the start survives, and if the start survives, there is one.
/// So if the search finds none, there is none, whatever the ranks; and if there is none, the search says so, unless there
/// are too many candidates.
pub fn derivations_are_not_missed()
    ensures survives { (sub above : Machine_data) (bound : ℕ) (d : Derivation_data) → IsDerivation d sub above → d.bound ≤ bound → Survives sub above bound (start_spot sub above) }
    ensures derives { (sub above : Machine_data) (bound : ℕ) → IsProper sub → IsProper above → Survives sub above bound (start_spot sub above)
        → (d : Derivation_data) × IsDerivation d sub above × (d.bound ≡ bound) }
    ensures none { (sub above : Machine_data) (bound : ℕ) (cut : Bool) (d : Derivation_data) → IsNotFound sub above bound cut → IsDerivation d sub above → d.bound ≤ bound → ⊥ }
    ensures not_found { (sub above : Machine_data) (bound : ℕ) → IsProper sub → IsProper above → (AreMoreThan sub above bound MOST_CANDIDATES → ⊥)
        → ((d : Derivation_data) → IsDerivation d sub above → d.bound ≤ bound → ⊥) → (cut : Bool) × IsNotFound sub above bound cut }
{}

/// What remembers is found: two well-formed machines have a canonical derivation if and only if some derivation within the
/// bound forgets nothing and there aren't too many candidates. So machines with a derivation that forgets nothing are
/// refused only if the search gives up; and if the canonical derivation forgets, each derivation does, whatever its bound.
pub fn what_remembers_is_found()
    ensures found { (sub above : Machine_data) (bound : ℕ) → IsProper sub → IsProper above
        → ((d : Derivation_data) × IsCanonical sub above bound d) ↔ IsDerivable sub above bound }
    ensures refused { (sub above : Machine_data) (bound : ℕ) (fault : SearchFault) → IsProper sub → IsProper above → CanFollow sub above bound
        → SearchRefuses sub above bound fault → (fault ≡ TooLarge) ⊎ (fault ≡ NoMemory) }
    ensures forgets { (sub above : Machine_data) (bound : ℕ) (d : Derivation_data) → IsProper sub → IsProper above → IsForgetful sub above bound
        → IsDerivation d sub above → Remembers d sub above → ⊥ }
{}

/// Within a greater bound each candidate is still one, and each survivor survives; and the canonical derivation is the
/// same, if there aren't too many candidates. If no candidate meets a cut, there are no others: a greater bound doesn't
/// help, and if nothing was found, there is no derivation of any bound.
pub fn greater_bounds()
    ensures candidates { (sub above : Machine_data) (bound more : ℕ) (p : Spot) → bound ≤ more → IsCandidate sub above bound p → IsCandidate sub above more p }
    ensures survivors { (sub above : Machine_data) (bound more : ℕ) (p : Spot) → bound ≤ more → Survives sub above bound p → Survives sub above more p }
    ensures large { (sub above : Machine_data) (bound more limit : ℕ) → bound ≤ more → AreMoreThan sub above bound limit → AreMoreThan sub above more limit }
    ensures derivation { (sub above : Machine_data) (bound more : ℕ) (d : Derivation_data) → IsProper sub → IsProper above → bound ≤ more → (AreMoreThan sub above more MOST_CANDIDATES → ⊥)
        → IsCanonical sub above bound d → IsCanonical sub above more (record d { bound = more }) }
    ensures uncut_candidates { (sub above : Machine_data) (bound more : ℕ) (p : Spot) → (SomeCut sub above bound → ⊥) → bound ≤ more → IsCandidate sub above more p ↔ IsCandidate sub above bound p }
    ensures uncut_survivors { (sub above : Machine_data) (bound more : ℕ) (p : Spot) → (SomeCut sub above bound → ⊥) → bound ≤ more → Survives sub above more p ↔ Survives sub above bound p }
    ensures not_found { (sub above : Machine_data) (bound more : ℕ) → bound ≤ more → IsNotFound sub above bound false → IsNotFound sub above more false }
    ensures none { (sub above : Machine_data) (bound : ℕ) (d : Derivation_data) → IsNotFound sub above bound false → IsDerivation d sub above → ⊥ }
{}

/// The results that the cost counts at a spot are those of all its moves within the bound, each move once.
pub fn results_of_each_move_are_counted()
    ensures { (sub above : Machine_data) (bound : ℕ) (p : Spot) → IsProper above
        → (moves : List (List Spot)) × AreMovesWithin sub above bound p moves × (nexts_within sub above bound p ≡ concat moves) }
{}
