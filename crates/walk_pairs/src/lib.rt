#![tactic(auto)]

// The two sides of a move, a load or a store, and the pair of positions that they stand at.
ghost use Rattle.std.specs.Prelude.{◌≡◌, ◌+◌, ◌-◌, ◌<◌, ◌≤◌, true, ◌⊎◌};
ghost use Rattle.walk_operands.specs.Place.{register_at};
ghost use Rattle.walk_pairs.specs.Side.{start, next};
ghost use Rattle.walk_pairs.specs.Pair.{first_on, skips, pair_from};

use walk_operands::mask::Mask;
use walk_operands::place::Place;

// A side that doesn't walk stands at position 0 and ignores its mask.
#[derive(Clone, Copy)]
pub struct Side {
    pub place: Place,
    pub walks: bool,
    pub mask: Mask,
}

// `Zeroed` where a side with zeroing is off.
#[derive(Clone, Copy)]
pub enum Pair {
    Found(usize, usize),
    Zeroed(usize, usize),
    End,
}

impl Side {
    // Where a side starts, by its offset.
    #[tactic(auto, unfolding(crate::specs::Side::start))]
    pub fn start(self, offset: usize) -> usize
        ensures { result ≡ start self offset }
    {
        if self.walks { offset } else { 0 }
    }

    // Where a side goes from a position.
    #[tactic(auto, unfolding(crate::specs::Side::next))]
    pub fn next(self, i: usize) -> usize
        requires { i < 64 }
        ensures { result ≡ next self i }
    {
        if self.walks { i + 1 } else { i }
    }

    // The register of a position, where the operand is a vector or the position 0.
    #[tactic(auto, unfolding(walk_operands::specs::Place::register_at))]
    pub fn register(self, i: usize) -> usize
        requires { (register_at self.place i < 128) × (i ≡ 0 ⊎ self.place.vector ≡ true) }
        ensures { result ≡ register_at self.place i }
    {
        self.place.register + i
    }

    // Whether a side is skipped where its mask is off.
    #[tactic(auto, unfolding(crate::specs::Pair::skips))]
    fn skips(self) -> bool
        ensures { result ≡ skips self }
    {
        if !self.walks {
            return false;
        }
        !self.mask.zeroing
    }

    // The next position after i that is on, and VL if there is none.
    fn next_on(self, i: usize, vl: usize) -> usize
        requires { (i < vl) × (vl ≤ 64) }
        ensures { result ≡ first_on self.mask (vl - (i + 1)) (i + 1) }
    {
        // Shifted on with the position: five instructions a turn on RV64, and six with `is_on`. By trailing_zeros a
        // skip has 18 where RV64 can't count zeros, also one over a single position.
        let mut rest = (self.mask.on >> i) / 2;
        let mut k = i + 1;
        while rest % 2 == 0 {
            if k >= vl {
                break;
            }
            rest = rest / 2;
            k += 1;
        }
        k
    }
}

// The next position that is on, on both sides; a side with zeroing isn't skipped.
pub fn find_pair(source: Side, destination: Side, vl: usize, i0: usize, j0: usize) -> Pair
    requires { (vl ≤ 64) × (i0 < vl) × (j0 < vl) }
    ensures { result ≡ pair_from source destination vl i0 j0 }
{
    let source_skips = source.skips();
    let destination_skips = destination.skips();
    let mut i = i0;
    let mut j = j0;
    let mut zeroed = false;
    // A labelled loop, as the requirements want the search for a pair.
    'pair: loop {
        let source_on = source.mask.is_on(i);
        if destination.mask.is_on(j) {
            // Most often both are on.
            if source_on {
                break Pair::Found(i, j);
            }
        } else if destination_skips {
            j = destination.next_on(j, vl);
            if j >= vl {
                break 'pair Pair::End;
            }
        } else if destination.walks {
            zeroed = true;
        }
        if !source_on {
            if source_skips {
                i = source.next_on(i, vl);
                if i >= vl {
                    break 'pair Pair::End;
                }
            } else if source.walks {
                zeroed = true;
            }
        }
        if zeroed {
            break Pair::Zeroed(i, j);
        }
        break Pair::Found(i, j);
    }
}
