//! Laws over the definitions: each function does nothing, and its contract is the law.
ghost use Rattle.std.specs.Prelude.{◌≡◌, ◌≢◌, ℕ, List, Option, Some};
ghost use Rattle.std.specs.List.{Contains};
ghost use Rattle.rs_model.specs.Data.{Protocol_data};
ghost use Rattle.rs_model.specs.declared.graph.Role.{Role};
ghost use Rattle.rs_partings.specs.Partings.{IsParting, MeetsMember, PartNowhere, PartsAt};
ghost use Rattle.rs_partings.specs.Waiting.{AreWaitingRound};
ghost use Rattle.rs_partings.specs.declared.searching.Parting.{Parting};
ghost use Rattle.rs_project.specs.Graph.{IsReached, IsUnreached};

/// There is one first parting at most.
pub fn one_parting_at_most()
    ensures { (protocol : Protocol_data) (role : Role) (a : ℕ) (b : Option ℕ) (one other : Parting) → IsParting protocol role a b one → IsParting protocol role a b other → one ≡ other }
{}

/// The ways to two members that the role may both meet first from a node that is reached part somewhere.
pub fn ways_to_two_members_part()
    ensures { (protocol : Protocol_data) (role : Role) (n a : ℕ) (b : Option ℕ) → IsReached protocol n → MeetsMember protocol role n (Some a) → MeetsMember protocol role n b → b ≢ Some a
        → PartNowhere protocol role a b → ⊥ }
{}

/// Of the talks round which the session goes there is one list.
pub fn one_round_at_most()
    ensures { (protocol : Protocol_data) (role : Role) (n : ℕ) (one other : List ℕ) → AreWaitingRound protocol role n one → AreWaitingRound protocol role n other → one ≡ other }
{}

/// Where a role is left waiting at a node, the node is one of those round which the session goes.
pub fn waiting_rounds_have_their_node()
    ensures { (protocol : Protocol_data) (role : Role) (n : ℕ) (talks : List ℕ) → IsUnreached protocol role n → AreWaitingRound protocol role n talks → Contains talks n }
{}
