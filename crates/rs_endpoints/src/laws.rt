//! Laws of endpoints. The functions do nothing: what is proved is their contracts.
ghost use Rattle.std.specs.Prelude.{ℕ};
ghost use Rattle.rs_model.specs.declared.values.Sort.{Sort};
ghost use Rattle.rs_model.specs.declared.values.Value.{Value};
ghost use Rattle.rs_endpoints.specs.Endpoints.{Endpoint_data, LookTells, PostTells};
ghost use Rattle.rs_endpoints.specs.declared.acts.Posted.TheVariants as posted;
ghost use Rattle.rs_endpoints.specs.declared.acts.Room.TheVariants as room;

/// Room that was seen stays: after a look that found room, the role's next send isn't answered by `Full`, by whichever arm.
pub fn seen_room_stays()
    ensures { (old seen new : Endpoint_data) (place at : ℕ) (sort : Sort) (value back : Value) → LookTells old place sort seen room.Free → PostTells seen at value new (posted.Full back) → ⊥ }
{}
