ghost use Rattle.std.specs.Prelude.{◌≡◌};
ghost use Rattle.test_reading_lines.specs.Number.{number_of, up_to};

use test_vector_lines::number::number_in;

// Decimal, or hex after 0x.
#[tactic(auto, unfolding(crate::specs::Number::number_of))]
fn number_of(word: &[u8]) -> Option<u64>
    ensures { result ≡ number_of word.now }
{
    match word {
        [] => None,
        [b'0', b'x', _, ..] => number_in(16, &word[2..]),
        _ => number_in(10, word),
    }
}

// A word as a number that is not above a limit.
#[tactic(auto, unfolding(crate::specs::Number::up_to))]
pub(crate) fn up_to(word: &[u8], most: u64) -> Option<u64>
    ensures { result ≡ up_to most word.now }
{
    let number = number_of(word)?;
    (number <= most).then_some(number)
}
