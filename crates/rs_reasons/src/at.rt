//! What stands at a place, or nothing.

ghost use Rattle.std.specs.Prelude.{◌≡◌, [], map, slice_get, slice_index_or};
ghost use Rattle.rs_text.specs.NamePlaces.{name_at};

use rs_model::Name;
use rs_places::Position;

/// The name at the place, or nothing where there is none.
pub fn name_at(names: &[Name], place: usize) -> &[u8]
    ensures { result.now ≡ name_at names.now place }
{
    match names.get(place) {
        Some(name) => name.as_slice(),
        None => b"",
    }
}

/// The positions at the place, or none.
pub fn places_at(places: &[Vec<Position>], place: usize) -> &[Position]
    ensures { result.now ≡ slice_index_or (map (λ m. m.items) places.now) place [] }
{
    match places.get(place) {
        Some(own) => own.as_slice(),
        None => &[],
    }
}

/// The position at the place, where there is one.
pub fn position_at(places: &[Position], place: usize) -> Option<Position>
    ensures { result ≡ slice_get places.now place }
{
    places.get(place).copied()
}
