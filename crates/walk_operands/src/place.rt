// The registers that an operand uses.
ghost use Rattle.std.specs.Prelude.{◌≡◌, ◌<◌};
ghost use Rattle.walk_operands.specs.Place.{place_of, register_at, fits};

use decode::decoded::{Operand, ResolvedOperand};

// A vector has a register for each position, from the one given on.
#[derive(Clone, Copy)]
pub struct Place {
    pub register: usize,
    pub vector: bool,
}

// The place of an operand: its real register, or for a plain one its own.
pub fn place_of(n: ResolvedOperand) -> Place
    ensures { result ≡ place_of n }
{
    match n.operand {
        Operand::Plain(register) | Operand::Scalar(register) => Place {
            register: register as usize,
            vector: false,
        },
        Operand::Vector(register) => Place {
            register: register as usize,
            vector: true,
        },
    }
}

impl Place {
    // The register of a position.
    #[tactic(auto, unfolding(crate::specs::Place::register_at))]
    pub fn at(self, i: usize) -> usize
        requires { register_at self i < 128 }
        ensures { result ≡ register_at self i }
    {
        if self.vector {
            self.register + i
        } else {
            self.register
        }
    }

    // Whether the registers of all positions below a vector length exist.
    pub fn fits(self, vl: u32) -> bool
        ensures { result ≡ fits vl self }
    {
        if 128 <= self.register {
            return false;
        }
        if self.vector {
            return self.register + (vl as usize) <= 128;
        }
        true
    }
}
