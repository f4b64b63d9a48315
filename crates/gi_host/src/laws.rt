// What follows of a session that was hosted.
ghost use Rattle.gi_host.specs.Laws.{UsesAQuarter};

/// A hosted session that ends by `TooMuch` has taken 2^62 bytes, or has made entries for at least a
/// quarter of the calls that its pass had.
pub fn too_much_is_a_quarter()
    ensures { UsesAQuarter }
{}
