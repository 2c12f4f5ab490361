// What a word is, with its operands.
use scalar::operator::Operator;
use scalar::width::Width;

// What a register number of an instruction names: itself, or the real register of its entry. Whether an operand is a
// vector is asked at each element, and cheapest of the first case.
#[derive(Clone, Copy)]
pub enum Operand {
    Vector(u8),
    Plain(u8),
    Scalar(u8),
}

// An operand with the width of the register entry that holds for it (0 where none does)
// and the word of the predicate entry that holds for it (0, the empty entry, where none does).
#[derive(Clone, Copy)]
pub struct ResolvedOperand {
    pub operand: Operand,
    pub width: u8,
    pub predicate: u16,
}

#[derive(Clone, Copy)]
pub enum SecondOperand {
    Register(ResolvedOperand),
    Immediate(u64),
}

#[derive(Clone, Copy)]
pub struct OperationWord {
    pub operator: Operator,
    pub destination: ResolvedOperand,
    pub first: ResolvedOperand,
    pub second: SecondOperand,
}

#[derive(Clone, Copy)]
pub struct MoveWord {
    pub destination: ResolvedOperand,
    pub source: ResolvedOperand,
}

#[derive(Clone, Copy)]
pub struct LoadWord {
    pub destination: ResolvedOperand,
    pub address: ResolvedOperand,
    pub offset: u64,
    pub width: Width,
    pub signed: bool,
}

#[derive(Clone, Copy)]
pub struct StoreWord {
    pub data: ResolvedOperand,
    pub address: ResolvedOperand,
    pub offset: u64,
    pub width: Width,
}

// The kinds that a word is read into. Of four orders that were counted, this one gives the loops of x86-64 the fewest
// instructions.
#[derive(Clone, Copy)]
pub enum Decoded {
    Unknown,
    Store(StoreWord),
    Load(LoadWord),
    Move(MoveWord),
    Operation(OperationWord),
}
