//! Laws over the definitions that the contracts cite. The functions do nothing: the contract is the law.
ghost use Rattle.std.specs.Prelude.{◌≡◌, ◌↔◌, ℕ, ◌<◌, List, false, slice_get, Some};
ghost use Rattle.rs_model.specs.declared.graph.Role.{Role};
ghost use Rattle.rs_model.specs.declared.machines.Act.{Act};
ghost use Rattle.rs_prefix.specs.Earliest.{Finds, IsFound, IsAbsent, has};
ghost use Rattle.rs_prefix.specs.Search.{earliest};
ghost use Rattle.rs_prefix.specs.declared.earliest.Found.{Found};
ghost use Rattle.rs_prefix.specs.declared.earliest.ActKind.{ActKind};

/// Exactly one answer is right, and it is the one that the code finds.
pub fn one_answer_is_right()
    ensures right { (pending : List Act) (kind : ActKind) (peer : Role) (found : Found) → Finds pending kind peer found ↔ (earliest pending kind peer ≡ found) }
    ensures one { (pending : List Act) (kind : ActKind) (peer : Role) (one other : Found) → Finds pending kind peer one → Finds pending kind peer other → one ≡ other }
{}

/// What is found is the first act of its kind with that peer, and if nothing is found, there is none.
pub fn the_first_is_found()
    ensures found { (pending : List Act) (kind : ActKind) (peer : Role) (place : ℕ) → IsFound pending kind peer place
        → (i : ℕ) (act : Act) → i < place → slice_get pending i ≡ Some act → has kind peer act ≡ false }
    ensures absent { (pending : List Act) (kind : ActKind) (peer : Role) → IsAbsent pending kind peer
        → (i : ℕ) (act : Act) → slice_get pending i ≡ Some act → has kind peer act ≡ false }
{}
