// The mask of an operand.
ghost use Rattle.std.specs.Prelude.{◌≡◌, ◌<◌};
ghost use Rattle.walk_operands.specs.Mask.{mask_by, is_on};

use registers::REGISTERS;
use tables::entry::PredicateEntry;

// Bit i of `on` is 1 where position i is on.
#[derive(Clone, Copy)]
pub struct Mask {
    pub on: u64,
    pub zeroing: bool,
}

// The mask by the word of the predicate entry that holds for an operand; 0, the empty entry, stands for none.
#[tactic(auto, unfolding(crate::specs::Mask::mask_by, crate::specs::Mask::on_bits))]
pub fn mask_by(predicate: u16, registers: &[u64; REGISTERS]) -> Mask
    ensures { result ≡ mask_by registers.now predicate }
{
    if predicate == 0 {
        return Mask {
            on: 0xffff_ffff_ffff_ffff,
            zeroing: false,
        };
    }
    let entry = PredicateEntry::from(predicate);
    let value = registers[entry.mask as usize];
    Mask {
        on: if entry.invert { !value } else { value },
        zeroing: entry.zeroing,
    }
}

impl Mask {
    #[tactic(auto, unfolding(crate::specs::Mask::is_on))]
    pub fn is_on(self, i: usize) -> bool
        requires { i < 64 }
        ensures { result ≡ is_on self i }
    {
        (self.on >> i) % 2 == 1
    }
}
