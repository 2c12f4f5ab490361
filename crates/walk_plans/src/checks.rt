// The refusals that look at a word's operands: answers 4 and 3, in that order.
ghost use Rattle.std.specs.Prelude.{◌≡◌, [], ◌∷◌};
ghost use Rattle.walk_plans.specs.Operands.{default_width, fitting, checked_operands, checked};

use answers::Answer;
use decode::decoded::{Decoded, ResolvedOperand, SecondOperand};
use walk_operands::place::place_of;

#[tactic(auto, unfolding(crate::specs::Operands::default_width))]
fn default_width(n: ResolvedOperand) -> bool
    ensures { result ≡ default_width n }
{
    n.width == 0
}

#[tactic(auto, unfolding(crate::specs::Operands::fitting))]
fn fitting(n: ResolvedOperand, vl: u32) -> bool
    ensures { result ≡ fitting vl n }
{
    place_of(n).fits(vl)
}

#[tactic(auto, unfolding(crate::specs::Operands::checked_operands))]
fn checked_operands(
    first: ResolvedOperand,
    second: ResolvedOperand,
    third: ResolvedOperand,
    vl: u32,
) -> Answer
    ensures { result ≡ checked_operands vl (first ∷ second ∷ third ∷ []) }
{
    if !(default_width(first) & default_width(second) & default_width(third)) {
        return Answer::BadWidth;
    }
    if !fitting(first, vl) {
        return Answer::PastRegisters;
    }
    if !fitting(second, vl) {
        return Answer::PastRegisters;
    }
    if !fitting(third, vl) {
        return Answer::PastRegisters;
    }
    Answer::Done(0)
}

// Of a word with two operands the second is looked at again; an unknown word has none.
#[tactic(auto, unfolding(bits::specs::Lists::all, crate::specs::Operands::checked_operands))]
pub fn checked(word: Decoded, vl: u32) -> Answer
    ensures { result ≡ checked vl word }
{
    match word {
        Decoded::Operation(w) => {
            let first = w.destination;
            let second = w.first;
            let third = w.second;
            match third {
                SecondOperand::Register(n) => checked_operands(first, second, n, vl),
                SecondOperand::Immediate(_) => checked_operands(first, second, second, vl),
            }
        }
        Decoded::Load(w) => {
            let first = w.destination;
            let second = w.address;
            checked_operands(first, second, second, vl)
        }
        Decoded::Store(w) => {
            let first = w.data;
            let second = w.address;
            checked_operands(first, second, second, vl)
        }
        Decoded::Move(w) => {
            let first = w.destination;
            let second = w.source;
            checked_operands(first, second, second, vl)
        }
        Decoded::Unknown => Answer::Done(0),
    }
}
