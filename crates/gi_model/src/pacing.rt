ghost use Rattle.std.specs.Prelude.{◌≡◌, ◌+◌, ◌-◌, nat_lt, if◌then◌else◌};
ghost use Rattle.gi_model.specs.Luby.{IsLuby};

/// A place within a part of the sequence that begins again after so many places.
fn folded(place: u64, size: u64) -> u64
    ensures { result ≡ (if nat_lt size place then place - size else place) }
{
    if place > size { place - size } else { place }
}

/// The Luby number at a place, from 0: 1 1 2 1 1 2 4 ..
pub fn luby(place: u32) -> u64
    ensures { IsLuby (place + 1) result }
{
    let mut left = u64::from(place) + 1;
    let mut size: u64 = 4_294_967_295;
    for _k in 0..32u32 {
        left = folded(left, size);
        if left == size {
            return size / 2 + 1;
        }
        size /= 2;
    }
    unreachable!()
}
