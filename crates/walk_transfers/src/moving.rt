// C.MV.
ghost use Rattle.std.specs.Prelude.{◌&&◌, ◌≡◌, ◌-◌, ◌^◌, eqb};
ghost use Rattle.walk_pausable.specs.Walk.{walk};
ghost use Rattle.walk_operations.specs.Context.{WithAnyMemory, pausing};
ghost use Rattle.walk_transfers.specs.Moving.{move_unit};
ghost use Rattle.walk_transfers.specs.SidesReady.{OfRegisters, Begins, Standing, MoveBegins, MoveStanding};

use crate::sides::Sides;
use registers::REGISTERS;
use walk_operations::generic::walk_over;
use walk_operations::position::{Position, Ran};
use walk_operations::walk::Plan;
use walk_pairs::Pair;

impl Sides {
    // One element.
    pub fn move_unit(self, position: Position, registers: &mut [u64; REGISTERS]) -> Ran
        requires sides_ready { Standing self position }
        requires registers { OfRegisters self.source × OfRegisters self.destination }
        ensures { WithAnyMemory (move_unit self)
            registers.old position result registers.new }
    {
        let (i, j, value) = match self.find(position) {
            Pair::End => return position.ended(2),
            Pair::Found(i, j) => (i, j, registers[self.source.register(i)]),
            Pair::Zeroed(i, j) => (i, j, 0),
        };
        self.put(position, 2, registers, i, j, value)
    }

    // Whether every position is on, on both sides.
    fn unmasked(self) -> bool
        ensures { result ≡ (eqb self.source.mask.on (2 ^ 64 - 1) && eqb self.destination.mask.on (2 ^ 64 - 1)) }
    {
        if self.source.mask.on != 0xffff_ffff_ffff_ffff {
            return false;
        }
        self.destination.mask.on == 0xffff_ffff_ffff_ffff
    }

    // At most as many elements as allowed. Where every position is on, none is looked for.
    pub fn move_walk(
        self,
        position: Position,
        allowance: u16,
        registers: &mut [u64; REGISTERS],
    ) -> Ran
        requires sides_ready { Begins self position }
        requires registers { OfRegisters self.source × OfRegisters self.destination }
        ensures { WithAnyMemory (walk pausing (move_unit self) allowance)
            registers.old position result registers.new }
    {
        let mut memory = [0u8; 0];
        if self.unmasked() {
            let plan = Unmasked { sides: self };
            return walk_over(plan, position, allowance, registers, &mut memory);
        }
        walk_over(self, position, allowance, registers, &mut memory)
    }
}

impl Plan for Sides {
    ghost begins = { MoveBegins };

    ghost stands = { MoveStanding };

    ghost unit_of = { move_unit };

    fn start(self, position: Position) -> Position {
        self.started(position)
    }

    fn walk_unit(
        self,
        position: Position,
        registers: &mut [u64; REGISTERS],
        memory: &mut [u8],
    ) -> Ran {
        self.move_unit(position, registers)
    }
}

// A move of which every position is on, on both sides: no pair is looked for.
#[derive(Clone, Copy)]
struct Unmasked {
    sides: Sides,
    ghost source_on: { sides.source.mask.on ≡ 2 ^ 64 - 1 },
    ghost destination_on: { sides.destination.mask.on ≡ 2 ^ 64 - 1 },
}

impl Plan for Unmasked {
    ghost begins = { λ u. MoveBegins u.sides };

    ghost stands = { λ u. MoveStanding u.sides };

    ghost unit_of = { λ u. move_unit u.sides };

    fn start(self, position: Position) -> Position {
        self.sides.started(position)
    }

    fn walk_unit(
        self,
        position: Position,
        registers: &mut [u64; REGISTERS],
        memory: &mut [u8],
    ) -> Ran {
        let sides = self.sides;
        let i = position.source;
        let j = position.destination;
        let value = registers[sides.source.register(i)];
        sides.put(position, 2, registers, i, j, value)
    }
}
