use compute::compute;
use decode::decoded::{Decoded, Operand, OperationWord, ResolvedOperand, SecondOperand};

fn is_plain(operand: ResolvedOperand, number: u8) -> bool {
    matches!(operand.operand, Operand::Plain(n) if n == number)
}

fn second_value(second: SecondOperand, x7: u64) -> Option<u64> {
    match second {
        SecondOperand::Register(operand) => is_plain(operand, 7).then_some(x7),
        SecondOperand::Immediate(value) => Some(value),
    }
}

fn operate(operation: OperationWord, x6: u64, x7: u64) -> Option<u64> {
    if !is_plain(operation.destination, 5) || !is_plain(operation.first, 6) {
        return None;
    }
    let second = second_value(operation.second, x7)?;
    Some(compute(operation.operator, x6, second))
}

// What a word computes, where it is an operation from x6, and x7 or an immediate, to x5. CFG 24
// enables all of both tables, and they are empty: every operand is plain.
pub(crate) fn execute(word: u32, x6: u64, x7: u64) -> Option<u64> {
    let empty = [0u16; 16];
    match decode::decode(word, 24, &empty, &empty) {
        Decoded::Operation(operation) => operate(operation, x6, x7),
        _ => None,
    }
}
