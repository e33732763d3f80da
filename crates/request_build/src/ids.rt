ghost use Rattle.std.specs.Prelude.{◌≡◌};
ghost use Rattle.desk_trail.specs.Requests.{id_at};

/// How many ids requests have: behind the greatest one comes 1 again.
const IDS: usize = 2_147_483_647;

/// The id of the request at a place.
pub fn id_of(place: usize) -> i32
    ensures { result ≡ id_at place }
{
    (place % IDS) as i32 + 1
}
