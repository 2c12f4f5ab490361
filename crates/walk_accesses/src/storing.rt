// A store: its destination side is the address.
ghost use Rattle.std.specs.Prelude.{◌≡◌, ◌<◌};
ghost use Rattle.memory.specs.Transfer.{store_answer, stored};
ghost use Rattle.scalar.specs.Width.{bytes_of};
ghost use Rattle.walk_pausable.specs.Walk.{walk};
ghost use Rattle.walk_operations.specs.Context.{context, outcome_of, pausing};
ghost use Rattle.walk_operations.specs.Plan.{SameWalk};
ghost use Rattle.walk_transfers.specs.Transfer.{after_transfer};
ghost use Rattle.walk_transfers.specs.SidesReady.{SidesReady, OfRegisters, Begins, Standing};
ghost use Rattle.walk_accesses.specs.Storing.{store_value, store_unit};

use crate::alignment::aligned;
use crate::loading::address_at;
use memory::access::Outside;
use memory::store::store;
use registers::REGISTERS;
use scalar::width::Width;
use walk_operations::generic::{PlanOver, walk_over};
use walk_operations::position::{Fault, Position, Ran};
use walk_operations::walk::Plan;
use walk_pairs::Pair;
use walk_transfers::sides::Sides;

#[derive(Clone, Copy)]
pub struct StorePlan {
    pub sides: Sides,
    pub offset: u64,
    pub width: Width,
}

// A store with the width distinguished once: each case is compiled for its own width.
fn put(memory: &mut [u8], address: u64, width: Width, value: u64) -> Result<(), Outside>
    ensures answer { result ≡ store_answer memory.old address (bytes_of width) }
    ensures bytes { memory.new ≡ stored memory.old address (bytes_of width) value }
{
    match width {
        Width::Byte => store(memory, address, Width::Byte, value),
        Width::Half => store(memory, address, Width::Half, value),
        Width::Word => store(memory, address, Width::Word, value),
        Width::Double => store(memory, address, Width::Double, value),
    }
}

impl StorePlan {
    // A value at a pair of positions.
    #[tactic(auto, unfolding(walk_transfers::specs::Transfer::after_transfer))]
    fn store_at(
        self,
        position: Position,
        registers: &[u64; REGISTERS],
        memory: &mut [u8],
        i: usize,
        j: usize,
        value: u64,
    ) -> Ran
        requires { SidesReady self.sides × (i < self.sides.vl) × (j < self.sides.vl) }
        ensures { let start = context registers.now memory.old position in
            outcome_of result registers.now memory.new
            ≡ after_transfer self.sides 4 start i j (store_value self start j value) }
    {
        let sides = self.sides;
        let width = self.width;
        let address = address_at(sides.destination.place, self.offset, width, registers, j);
        if !aligned(address, width) {
            return position.faulted(Fault::Misaligned, address, i, j);
        }
        match put(memory, address, width, value) {
            Ok(()) => sides.after(position, 4, i, j),
            Err(Outside) => position.faulted(Fault::Outside, address, i, j),
        }
    }

    // One element.
    pub fn unit(self, position: Position, registers: &[u64; REGISTERS], memory: &mut [u8]) -> Ran
        requires sides_ready { Standing self.sides position }
        requires registers { OfRegisters self.sides.source }
        ensures { let start = context registers.now memory.old position in
            outcome_of result registers.now memory.new ≡ store_unit self start }
    {
        let sides = self.sides;
        let (i, j, value) = match sides.find(position) {
            Pair::End => return position.ended(4),
            Pair::Found(i, j) => (i, j, registers[sides.source.register(i)]),
            Pair::Zeroed(i, j) => (i, j, 0),
        };
        self.store_at(position, registers, memory, i, j, value)
    }

    // At most as many elements as allowed.
    pub fn walk(
        self,
        position: Position,
        allowance: u16,
        registers: &[u64; REGISTERS],
        memory: &mut [u8],
    ) -> Ran
        requires sides_ready { Begins self.sides position }
        requires registers { OfRegisters self.sides.source }
        ensures { let start = context registers.now memory.old position in
            outcome_of result registers.now memory.new ≡ walk pausing (store_unit self) allowance start }
    {
        let mut lent = registers;
        walk_over(self, position, allowance, &mut lent, memory)
    }
}

impl Plan for StorePlan {
    ghost begins = { λ plan position. Begins plan.sides position × OfRegisters plan.sides.source };

    ghost stands = { λ plan position. Standing plan.sides position × OfRegisters plan.sides.source };

    ghost unit_of = { store_unit };

    fn start(self, position: Position) -> Position {
        self.sides.started(position)
    }

    fn walk_unit(
        self,
        position: Position,
        registers: &mut [u64; REGISTERS],
        memory: &mut [u8],
    ) -> Ran {
        self.unit(position, registers, memory)
    }
}

impl<'a> PlanOver<&'a [u64; REGISTERS]> for StorePlan {
    ghost registers_in = { λ registers. registers.now };

    ghost begins = { λ plan position. Begins plan.sides position × OfRegisters plan.sides.source };

    ghost stands = { λ plan position. Standing plan.sides position × OfRegisters plan.sides.source };

    ghost unit_of = { store_unit };

    // With clauses of its own, since those of the trait are not given where its parameter is a reference.
    fn start(self, position: Position) -> Position
        requires { Begins self.sides position × OfRegisters self.sides.source }
        ensures stands { Standing self.sides result × OfRegisters self.sides.source }
        ensures same { SameWalk (store_unit self) position result }
    {
        Plan::start(self, position)
    }

    fn walk_unit(
        self,
        position: Position,
        registers: &mut &'a [u64; REGISTERS],
        memory: &mut [u8],
    ) -> Ran {
        self.unit(position, *registers, memory)
    }
}
