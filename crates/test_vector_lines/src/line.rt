ghost use Rattle.std.specs.Prelude.{◌≡◌};
ghost use Rattle.test_vector_lines.specs.Line.{line_of};

use crate::hex::hex_number;

// An instruction's word, the values of its operands and the result that it writes for them.
#[derive(Clone, Copy)]
pub struct TestVector {
    pub word: u32,
    pub rs1: u64,
    pub rs2: u64,
    pub result: u64,
}

// A line without its line end: 8 digits and three times 16, with one space between. Any other
// line is damaged, and gives none.
#[tactic(auto, unfolding(crate::specs::Line::line_of))]
pub fn line_of(line: &[u8]) -> Option<TestVector>
    ensures { result ≡ line_of line.now }
{
    if line.len() != 59 {
        return None;
    }
    let spaced = (line[8] == b' ') & (line[25] == b' ') & (line[42] == b' ');
    if !spaced {
        return None;
    }
    let word = hex_number(&line[..8])? as u32;
    let rs1 = hex_number(&line[9..25])?;
    let rs2 = hex_number(&line[26..42])?;
    let result = hex_number(&line[43..59])?;
    Some(TestVector {
        word,
        rs1,
        rs2,
        result,
    })
}
