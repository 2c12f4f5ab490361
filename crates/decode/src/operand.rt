// What a register number of an instruction names, by the two tables.
ghost use Rattle.std.specs.Prelude.{◌≡◌, ◌≤◌};
ghost use Rattle.search.specs.Search.{held_entry};
ghost use Rattle.search.specs.declared.Table.TheVariants.{Register, Predicate};
ghost use Rattle.decode.specs.Resolving.{resolved_by, predicate_by, redirected};

use crate::decoded::{Operand, ResolvedOperand};
use search::{Table, held_entry};
use tables::ENTRIES;
use tables::enabled::Range;
use tables::entry::RegisterEntry;

// The two tables, and the entries in which a register number is looked for.
#[derive(Clone, Copy)]
pub(crate) struct Lookup<'a> {
    pub registers: &'a [u16; ENTRIES],
    pub predicates: &'a [u16; ENTRIES],
    pub range: Range,
    ghost low: { range.end ≤ 16 },
}

// What the entry that holds for a register makes of it.
fn redirected(entry: RegisterEntry) -> Operand
    ensures { result ≡ redirected entry }
{
    if entry.vector {
        Operand::Vector(entry.register)
    } else {
        Operand::Scalar(entry.register)
    }
}

impl<'a> Lookup<'a> {
    // The word of the predicate entry that holds for a key, 0 where none does.
    pub(crate) fn predicate_by(self, key: u8) -> u16
        ensures { let words = self.entry.predicates.now in
            result ≡ predicate_by (held_entry Predicate words self.entry.range key) words }
    {
        match held_entry(Table::Predicate, self.predicates, self.range, key) {
            Some(i) => self.predicates[i],
            None => 0,
        }
    }

    // What a register number names, with the word of a predicate entry.
    pub(crate) fn resolved_by(self, key: u8, predicate: u16) -> ResolvedOperand
        ensures { let words = self.entry.registers.now in
            result ≡ resolved_by (held_entry Register words self.entry.range key) words key predicate }
    {
        match held_entry(Table::Register, self.registers, self.range, key) {
            Some(i) => {
                let entry = RegisterEntry::from(self.registers[i]);
                ResolvedOperand {
                    operand: redirected(entry),
                    width: entry.width,
                    predicate,
                }
            }
            None => ResolvedOperand {
                operand: Operand::Plain(key),
                width: 0,
                predicate,
            },
        }
    }
}
