#![tactic(auto)]

// A word and the tables, read into one of the kinds.
ghost use Rattle.std.specs.Prelude.{◌≡◌};
ghost use Rattle.decode.specs.Decoding.{decoded, sources_unmasked};

use crate::compressed::compressed_move;
use crate::decoded::Decoded;
use crate::uncompressed::uncompressed_word;
use tables::ENTRIES;

mod compressed;
pub mod decoded;
mod operand;
mod uncompressed;

// What a word is under a CFG and the two tables, which are handed on as they are to the one place that looks keys up. A
// word whose lowest two bits aren't 11 has 16 bits. The masks of an operation's sources aren't looked for.
pub fn decode<'a>(
    word: u32,
    cfg: u32,
    register_table: &'a [u16; ENTRIES],
    predicate_table: &'a [u16; ENTRIES],
) -> Decoded
    ensures { result ≡ sources_unmasked (decoded word cfg register_table.now predicate_table.now) }
{
    if word % 4 != 0b11 {
        return compressed_move(word, cfg, register_table, predicate_table);
    }
    uncompressed_word(word, cfg, register_table, predicate_table)
}
