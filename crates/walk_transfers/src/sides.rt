// What a move, a load and a store have in common: two sides and the pair of positions.
ghost use Rattle.std.specs.Prelude.{◌≡◌, true, ◌⊎◌, ◌<◌, ◌≤◌};
ghost use Rattle.registers.specs.Written.{written};
ghost use Rattle.walk_operands.specs.Place.{register_at};
ghost use Rattle.walk_transfers.specs.SidesReady.{Standing};
ghost use Rattle.walk_transfers.specs.Transfer.{started, pair_of, after_pair};

use registers::{REGISTERS, write_within};
use walk_operations::position::{Position, Ran};
use walk_pairs::{Pair, Side, find_pair};

// That sides are ready is asked at each use and no invariant of them: a plan is made of any word (`move_plan` and the
// like have no `requires`). `single` where the instruction ends after its first element.
#[derive(Clone, Copy)]
pub struct Sides {
    pub vl: usize,
    pub source: Side,
    pub destination: Side,
    pub single: bool,
}

impl Sides {
    // The pair that a unit works at, from where both sides stand.
    pub fn find(self, position: Position) -> Pair
        requires { Standing self position }
        ensures { result ≡ pair_of self position }
    {
        find_pair(
            self.source,
            self.destination,
            self.vl,
            position.source,
            position.destination,
        )
    }

    // Where both sides start.
    #[tactic(auto, unfolding(crate::specs::Transfer::started))]
    pub fn started(self, position: Position) -> Position
        ensures { result ≡ started self position }
    {
        let source = self.source.start(position.source);
        let destination = self.destination.start(position.destination);
        Position {
            pc: position.pc,
            source,
            destination,
        }
    }

    // The value of an element, written by an instruction of some bytes.
    pub fn put(
        self,
        position: Position,
        bytes: u64,
        registers: &mut [u64; REGISTERS],
        i: usize,
        j: usize,
        value: u64,
    ) -> Ran
        requires i_lt_vl { (i < self.vl) × (j < self.vl) × (self.vl ≤ 64) }
        requires register { (register_at self.destination.place j < 128)
            × (j ≡ 0 ⊎ self.destination.place.vector ≡ true) }
        ensures ran { result ≡ after_pair self bytes position i j }
        ensures registers { registers.new
            ≡ written registers.old (register_at self.destination.place j) value }
    {
        let to = self.destination.register(j);
        write_within(registers, to, value);
        self.after(position, bytes, i, j)
    }

    // On from a pair whose element is moved, or the end of an instruction of some bytes.
    pub fn after(self, position: Position, bytes: u64, i: usize, j: usize) -> Ran
        requires { (i < self.vl) × (j < self.vl) × (self.vl ≤ 64) }
        ensures { result ≡ after_pair self bytes position i j }
    {
        let source = self.source.next(i);
        let destination = self.destination.next(j);
        // With end 0 for a single element there is one test a side: a side that doesn't walk stays below VL.
        let end = if self.single { 0 } else { self.vl };
        if source >= end {
            return position.ended(bytes);
        }
        if destination >= end {
            return position.ended(bytes);
        }
        position.onward(source, destination)
    }
}
