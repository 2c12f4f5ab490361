// The words of 16 bits.
ghost use Rattle.std.specs.Prelude.{◌≡◌};
ghost use Rattle.decode.specs.Resolving.{resolved};
ghost use Rattle.decode.specs.Decoding.{compressed_move};

use crate::decoded::{Decoded, MoveWord};
use crate::operand::Lookup;
use encoding::fields;
use search::used_range;
use tables::ENTRIES;

// A word of 16 bits is C.MV or unknown. With a second register of 0 it would be C.JR.
pub(crate) fn compressed_move<'a>(
    word: u32,
    cfg: u32,
    register_table: &'a [u16; ENTRIES],
    predicate_table: &'a [u16; ENTRIES],
) -> Decoded
    ensures { let operand = resolved cfg register_table.now predicate_table.now in
        result ≡ compressed_move operand word }
{
    if word % 4 != 0b10 {
        return Decoded::Unknown;
    }
    if word / 0x1000 % 16 != 0b1000 {
        return Decoded::Unknown;
    }
    let rs2 = fields::compressed_rs2(word);
    if rs2 == 0 {
        return Decoded::Unknown;
    }
    let lookup = Lookup {
        registers: register_table,
        predicates: predicate_table,
        range: used_range(cfg, register_table, predicate_table),
    };
    let rd = fields::rd(word);
    let mask = lookup.predicate_by(rd);
    let destination = lookup.resolved_by(rd, mask);
    let source_mask = lookup.predicate_by(rs2);
    let source = lookup.resolved_by(rs2, source_mask);
    Decoded::Move(MoveWord {
        destination,
        source,
    })
}
