//! Laws of stages. The functions do nothing: what is proved is their contracts.
ghost use Rattle.std.specs.Prelude.{◌≡◌, ℕ, List, true};
ghost use Rattle.rs_model.specs.declared.values.Value.{Value};
ghost use Rattle.rs_rings.specs.Passes.{Rings_data};
ghost use Rattle.rs_session.specs.Acts.{RoomTells, SendTells};
ghost use Rattle.rs_session.specs.Data.{Stage_data};
ghost use Rattle.rs_session.specs.Ends.{AreAllThere, IsLeastMissing};
ghost use Rattle.rs_session.specs.Stages.{IsEnded, IsReceiving, IsSending};
ghost use Rattle.rs_session.specs.declared.stages.Sent.TheVariants.{Full};

/// Either there is a stage of each role, or one role is the least that is missing.
pub fn one_role_is_missing_first()
    ensures one { (roles : ℕ) (stages : List Stage_data) (r s : ℕ) → IsLeastMissing roles stages r → IsLeastMissing roles stages s → r ≡ s }
    ensures not_all { (roles : ℕ) (stages : List Stage_data) (r : ℕ) → IsLeastMissing roles stages r → AreAllThere roles stages → ⊥ }
{}

/// Room that was seen stays: after a look that found room, the role's send isn't answered by `Full`.
pub fn seen_room_stays()
    ensures { (session : Rings_data) (old seen new : Stage_data) (place sent taken : ℕ) (value back : Value) → RoomTells session old seen true → SendTells session seen place value (Full new back sent taken) → ⊥ }
{}

/// A stage of a session is of one kind.
pub fn stages_are_of_one_kind()
    ensures sends { (session : Rings_data) (stage : Stage_data) → IsSending session stage → IsReceiving session stage → ⊥ }
    ensures ends { (session : Rings_data) (stage : Stage_data) → IsSending session stage → IsEnded session stage → ⊥ }
    ensures receives { (session : Rings_data) (stage : Stage_data) → IsReceiving session stage → IsEnded session stage → ⊥ }
{}
