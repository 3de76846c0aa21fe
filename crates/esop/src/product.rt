// Kinds of product: what each kind offers, and what it must show.
ghost use Rattle.std.specs.Prelude.{◌≡◌};
ghost use Rattle.esop.specs.Kind.{Meaning, Laws, differs, distance, nth_difference};

// No kind has more positions, so code that looks at this many has seen them all.
pub const MOST_POSITIONS: usize = 33;

pub trait Product: Copy {
    // What the products of this kind are: their positions, their weights, and the points that they cover.
    ghost meaning: { Meaning Self };

    // Whether the two have different values at position `i`. Past the last position nothing differs.
    fn differs(self, other: Self, i: usize) -> bool
        ensures { result ≡ differs meaning self other i };

    // This product with its position `i` replaced by that of `other`.
    fn take(self, other: Self, i: usize) -> Self
        ensures { result ≡ meaning.taken self i other };

    // This product with its position `i` replaced by the joined value of the two. Where they differ in that position
    // only, the result covers what one of them covers and the other does not.
    fn join(self, other: Self, i: usize) -> Self
        ensures { result ≡ meaning.joined self i other };

    // What the product costs besides its place in a cover.
    fn weight(self) -> u32
        ensures { result ≡ meaning.weight self };

    fn covers(self, point: u64) -> bool
        ensures { result ≡ meaning.covers self point };

    // At how many positions the two differ. A loop in place of a chain of iterators, here and below: what a chain in a
    // trait answers has to be shown by a lemma, and then a wrong answer is found in the proof and not at this line.
    fn distance(self, other: Self) -> usize
        ensures { result ≡ distance meaning self other }
    {
        let mut count = 0;
        for i in 0..MOST_POSITIONS {
            if self.differs(other, i) {
                count += 1;
            }
        }
        count
    }

    // The `n`-th position, counted from 0, at which the two differ.
    fn difference(self, other: Self, n: usize) -> Option<usize>
        ensures { result ≡ nth_difference meaning self other n }
    {
        let mut skip = n;
        for i in 0..MOST_POSITIONS {
            if self.differs(other, i) {
                if skip == 0 {
                    return Some(i);
                }
                skip -= 1;
            }
        }
        None
    }

    // What each kind must show. `positionwise_lawful` of proofs/ gives it to a kind whose products cover a point where
    // each position by itself lets the point through.
    ghost lawful: { Laws meaning };
}
