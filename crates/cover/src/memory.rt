// The memory of a cover.
ghost use Rattle.std.specs.Prelude.{◌≤◌, length};

// No cover has more products.
pub const MOST: usize = 960;

// A group is tried in a list of its own, which holds up to two products more than the cover.
pub const WORK: usize = MOST + 2;

// The first `count` of the places hold the products, at most `N`; the others are free. The places are lent, so a cover
// has as many as its caller has, and not as many as it holds.
#[derive(Drop)]
pub struct Cover<'a, P, const N: usize> {
    pub(crate) places: &'a mut [P],
    pub(crate) count: usize,
    ghost ok: { (count ≤ length places.now) × (count ≤ N) },
}
