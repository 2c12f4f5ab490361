#![tactic(auto)]

// The entry that holds for a key: the same search in both tables.
ghost use Rattle.std.specs.Prelude.{◌≤◌, ◌≡◌};
ghost use Rattle.search.specs.Search.{entry_answers, held_entry, FindsEnabled};

use tables::ENTRIES;
use tables::enabled::{Range, enabled_range};

#[derive(Clone, Copy)]
pub enum Table {
    Register,
    Predicate,
}

// Whether an entry is an integer one with this key: one comparison of both fields, without the bits between them.
#[tactic(auto, unfolding(crate::specs::Search::entry_answers))]
pub fn entry_answers(table: Table, key: u8, word: u16) -> bool
    ensures { result ≡ entry_answers table key word }
{
    match table {
        Table::Register => {
            let low = word % 256;
            low - low / 32 % 4 * 32 == 128 + key as u16
        }
        Table::Predicate => {
            let high = word / 256;
            high - high / 2 % 4 * 2 == 1 + key as u16 * 8
        }
    }
}

// The enabled entries up to the last that isn't empty in both tables. Most tables have few entries, and an empty one
// answers to no key. Two entries are tested in a turn, since an enabled range has an even number of them.
pub fn used_range<'a>(
    cfg: u32,
    register_table: &'a [u16; ENTRIES],
    predicate_table: &'a [u16; ENTRIES],
) -> Range
    ensures { FindsEnabled cfg register_table.now predicate_table.now result }
{
    let Range { first, end } = enabled_range(cfg);
    for pair in (first / 2..end / 2).rev() {
        let i = 2 * pair;
        if (register_table[i + 1] != 0) | (predicate_table[i + 1] != 0) {
            return Range { first, end: i + 2 };
        }
        if (register_table[i] != 0) | (predicate_table[i] != 0) {
            return Range { first, end: i + 1 };
        }
    }
    Range { first, end: first }
}

// The index of the entry of a range that holds for a key, if one does.
pub fn held_entry(table: Table, entries: &[u16; ENTRIES], range: Range, key: u8) -> Option<usize>
    requires { range.end ≤ 16 }
    ensures { result ≡ held_entry table entries.now range key }
{
    for i in (range.first..range.end).rev() {
        if entry_answers(table, key, entries[i]) {
            return Some(i);
        }
    }
    None
}
