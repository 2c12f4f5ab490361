// A load: its source side is the address.
ghost use Rattle.std.specs.Prelude.{◌≡◌, ◌<◌};
ghost use Rattle.walk_operands.specs.Place.{register_at};
ghost use Rattle.walk_pausable.specs.Walk.{walk};
ghost use Rattle.walk_operations.specs.Context.{context, outcome_of, pausing, reading};
ghost use Rattle.walk_accesses.specs.Loading.{address_at, load_value, load_unit};
ghost use Rattle.walk_transfers.specs.SidesReady.{OfRegisters, Begins, Standing};

use crate::alignment::aligned;
use memory::access::Outside;
use memory::load::load;
use registers::REGISTERS;
use scalar::signed::sign_extend;
use scalar::width::Width;
use walk_operands::place::Place;
use walk_operations::generic::walk_over;
use walk_operations::position::{Fault, Position, Ran};
use walk_operations::walk::Plan;
use walk_pairs::Pair;
use walk_transfers::sides::Sides;

#[derive(Clone, Copy)]
pub struct LoadPlan {
    pub sides: Sides,
    pub offset: u64,
    pub width: Width,
    pub signed: bool,
}

// The address of a position. The kind is told first, so that each has its own work alone.
pub(crate) fn address_at(
    place: Place,
    offset: u64,
    width: Width,
    registers: &[u64; REGISTERS],
    i: usize,
) -> u64
    requires { (register_at place i < 128) × (i < 64) }
    ensures { result ≡ address_at place offset width registers.now i }
{
    if place.vector {
        return registers[place.at(i)].wrapping_add(offset);
    }
    let register = place.register;
    let distance = offset.wrapping_add(i as u64 * width.bytes());
    registers[register].wrapping_add(distance)
}

// The number of the bytes at an address, as 64 bits.
#[tactic(auto, unfolding(crate::specs::Loading::load_value))]
fn load_value_as(memory: &[u8], address: u64, width: Width, signed: bool) -> Result<u64, Outside>
    ensures { result ≡ load_value memory.now address width signed }
{
    let value = load(memory, address, width)?;
    Ok(if signed {
        sign_extend(width, value)
    } else {
        value
    })
}

// The same, with the width distinguished once: each case is compiled for its own width. A double has
// no bits to extend.
fn load_value(memory: &[u8], address: u64, width: Width, signed: bool) -> Result<u64, Outside>
    ensures { result ≡ load_value memory.now address width signed }
{
    match width {
        Width::Byte => load_value_as(memory, address, Width::Byte, signed),
        Width::Half => load_value_as(memory, address, Width::Half, signed),
        Width::Word => load_value_as(memory, address, Width::Word, signed),
        Width::Double => load_value_as(memory, address, Width::Double, false),
    }
}

impl LoadPlan {
    // One element.
    #[tactic(auto, unfolding(crate::specs::Loading::load_unit))]
    pub fn unit(self, position: Position, registers: &mut [u64; REGISTERS], memory: &[u8]) -> Ran
        requires sides_ready { Standing self.sides position }
        requires registers { OfRegisters self.sides.destination }
        ensures { let start = context registers.old memory.now position in
            outcome_of result registers.new memory.now ≡ load_unit self start }
    {
        let sides = self.sides;
        let (i, j, value) = match sides.find(position) {
            Pair::End => return position.ended(4),
            Pair::Found(i, j) => {
                let width = self.width;
                let address = address_at(sides.source.place, self.offset, width, registers, i);
                if !aligned(address, width) {
                    return position.faulted(Fault::Misaligned, address, i, j);
                }
                match load_value(memory, address, width, self.signed) {
                    Ok(value) => (i, j, value),
                    Err(Outside) => return position.faulted(Fault::Outside, address, i, j),
                }
            }
            Pair::Zeroed(i, j) => (i, j, 0),
        };
        sides.put(position, 4, registers, i, j, value)
    }

    // At most as many elements as allowed.
    pub fn walk(
        self,
        position: Position,
        allowance: u16,
        registers: &mut [u64; REGISTERS],
        memory: &[u8],
    ) -> Ran
        requires sides_ready { Begins self.sides position }
        requires registers { OfRegisters self.sides.destination }
        ensures { let start = context registers.old memory.now position in
            outcome_of result registers.new memory.now ≡ walk pausing (load_unit self) allowance start }
    {
        let plan = Reading { plan: self, memory };
        let mut none = [0u8; 0];
        walk_over(plan, position, allowance, registers, &mut none)
    }
}

impl Plan for LoadPlan {
    ghost begins = { λ plan position. Begins plan.sides position × OfRegisters plan.sides.destination };

    ghost stands = { λ plan position. Standing plan.sides position × OfRegisters plan.sides.destination };

    ghost unit_of = { load_unit };

    fn start(self, position: Position) -> Position {
        self.sides.started(position)
    }

    fn walk_unit(
        self,
        position: Position,
        registers: &mut [u64; REGISTERS],
        memory: &mut [u8],
    ) -> Ran {
        self.unit(position, registers, memory)
    }
}

// A load and the memory that it reads, so that its walk is lent none to write.
#[derive(Clone, Copy)]
struct Reading<'a> {
    plan: LoadPlan,
    memory: &'a [u8],
}

impl<'a> Plan for Reading<'a> {
    ghost begins = { λ r position. Begins r.plan.sides position × OfRegisters r.plan.sides.destination };

    ghost stands = { λ r position. Standing r.plan.sides position × OfRegisters r.plan.sides.destination };

    ghost unit_of = { λ r. reading r.memory.now (load_unit r.plan) };

    fn start(self, position: Position) -> Position {
        self.plan.sides.started(position)
    }

    fn walk_unit(
        self,
        position: Position,
        registers: &mut [u64; REGISTERS],
        memory: &mut [u8],
    ) -> Ran {
        self.plan.unit(position, registers, self.memory)
    }
}
