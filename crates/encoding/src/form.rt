// Which instruction a word of 32 bits is, before its registers are looked at.
ghost use Rattle.std.specs.Prelude.{◌≡◌, ◌+◌, ◌*◌, ◌^◌};
ghost use Rattle.encoding.specs.Fields.{opcode, funct3};
ghost use Rattle.encoding.specs.Listing.{form_of, look_up, funct6_rows, funct7_rows};

use scalar::operator::Operator;
use scalar::width::Width;

// The forms that differ in their operands, and none of them: `Unknown` is a case as it is of `Decoded`, where the
// requirements name it. The four of operations differ in the second one. Those with one source register stand first: a
// call then has 40 instructions less on RV64 than with `Register` first.
#[derive(Clone, Copy)]
pub enum Form {
    Load(Width),
    LoadUnsigned(Width),
    Immediate(Operator),
    Shift(Operator),
    WordShift(Operator),
    Register(Operator),
    Store(Width),
    Unknown,
}

// funct3 and the opcode, side by side.
fn code(word: u32) -> u32
    ensures { result ≡ funct3 word * 2 ^ 7 + opcode word }
{
    word / 0x1000 % 8 * 128 + word % 128
}

// A form shows in funct3 and the opcode, and where these leave it open in the highest bits too.
#[tactic(auto, unfolding(crate::specs::Listing::funct3_rows, crate::specs::Listing::funct6_rows, crate::specs::Listing::funct7_rows, crate::specs::Listing::first_form, crate::proofs::Passed::Apart, bits::specs::Lists::all))]
pub fn form_of(word: u32) -> Form
    ensures { result ≡ form_of word }
{
    match code(word) {
        0b000_0000011 => Form::Load(Width::Byte),
        0b001_0000011 => Form::Load(Width::Half),
        0b010_0000011 => Form::Load(Width::Word),
        0b011_0000011 => Form::Load(Width::Double),
        0b100_0000011 => Form::LoadUnsigned(Width::Byte),
        0b101_0000011 => Form::LoadUnsigned(Width::Half),
        0b110_0000011 => Form::LoadUnsigned(Width::Word),
        0b000_0100011 => Form::Store(Width::Byte),
        0b001_0100011 => Form::Store(Width::Half),
        0b010_0100011 => Form::Store(Width::Word),
        0b011_0100011 => Form::Store(Width::Double),
        0b000_0010011 => Form::Immediate(Operator::Add),
        0b010_0010011 => Form::Immediate(Operator::Slt),
        0b011_0010011 => Form::Immediate(Operator::Sltu),
        0b100_0010011 => Form::Immediate(Operator::Xor),
        0b110_0010011 => Form::Immediate(Operator::Or),
        0b111_0010011 => Form::Immediate(Operator::And),
        0b000_0011011 => Form::Immediate(Operator::Addw),
        0b001_0010011 | 0b101_0010011 => funct6_form(word),
        _ => funct7_form(word),
    }
}

// The shifts by an immediate, by bits 31..26, funct3 and the opcode.
#[tactic(auto, unfolding(crate::specs::Listing::funct6_rows, crate::specs::Listing::first_form, crate::proofs::Passed::Apart))]
fn funct6_form(word: u32) -> Form
    ensures { result ≡ look_up funct6_rows word }
{
    match word / 0x400_0000 * 1024 + code(word) {
        0b000000_001_0010011 => Form::Shift(Operator::Sll),
        0b000000_101_0010011 => Form::Shift(Operator::Srl),
        0b010000_101_0010011 => Form::Shift(Operator::Sra),
        _ => Form::Unknown,
    }
}

// The forms with a funct7, by that, funct3 and the opcode.
#[tactic(auto, unfolding(crate::specs::Listing::funct7_rows, crate::specs::Listing::first_form, crate::proofs::Passed::Apart))]
fn funct7_form(word: u32) -> Form
    ensures { result ≡ look_up funct7_rows word }
{
    match word / 0x200_0000 * 1024 + code(word) {
        0b0000000_001_0011011 => Form::WordShift(Operator::Sllw),
        0b0000000_101_0011011 => Form::WordShift(Operator::Srlw),
        0b0100000_101_0011011 => Form::WordShift(Operator::Sraw),
        0b0000000_000_0110011 => Form::Register(Operator::Add),
        0b0100000_000_0110011 => Form::Register(Operator::Sub),
        0b0000000_001_0110011 => Form::Register(Operator::Sll),
        0b0000000_010_0110011 => Form::Register(Operator::Slt),
        0b0000000_011_0110011 => Form::Register(Operator::Sltu),
        0b0000000_100_0110011 => Form::Register(Operator::Xor),
        0b0000000_101_0110011 => Form::Register(Operator::Srl),
        0b0100000_101_0110011 => Form::Register(Operator::Sra),
        0b0000000_110_0110011 => Form::Register(Operator::Or),
        0b0000000_111_0110011 => Form::Register(Operator::And),
        0b0000000_000_0111011 => Form::Register(Operator::Addw),
        0b0100000_000_0111011 => Form::Register(Operator::Subw),
        0b0000000_001_0111011 => Form::Register(Operator::Sllw),
        0b0000000_101_0111011 => Form::Register(Operator::Srlw),
        0b0100000_101_0111011 => Form::Register(Operator::Sraw),
        0b0000001_000_0110011 => Form::Register(Operator::Mul),
        0b0000001_001_0110011 => Form::Register(Operator::Mulh),
        0b0000001_010_0110011 => Form::Register(Operator::Mulhsu),
        0b0000001_011_0110011 => Form::Register(Operator::Mulhu),
        0b0000001_100_0110011 => Form::Register(Operator::Div),
        0b0000001_101_0110011 => Form::Register(Operator::Divu),
        0b0000001_110_0110011 => Form::Register(Operator::Rem),
        0b0000001_111_0110011 => Form::Register(Operator::Remu),
        0b0000001_000_0111011 => Form::Register(Operator::Mulw),
        0b0000001_100_0111011 => Form::Register(Operator::Divw),
        0b0000001_101_0111011 => Form::Register(Operator::Divuw),
        0b0000001_110_0111011 => Form::Register(Operator::Remw),
        0b0000001_111_0111011 => Form::Register(Operator::Remuw),
        _ => Form::Unknown,
    }
}
