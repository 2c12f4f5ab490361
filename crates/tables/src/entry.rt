// The words of the two tables, taken apart.
ghost use Rattle.std.specs.Prelude.{◌≡◌, get_or, set};
ghost use Rattle.tables.specs.Entry.{register_entry, predicate_entry, all_bit0_clear};

use crate::ENTRIES;

#[derive(Clone, Copy)]
pub struct RegisterEntry {
    pub vector: bool,
    pub register: u8,
    pub integer: bool,
    pub width: u8,
    pub key: u8,
}

#[derive(Clone, Copy)]
pub struct PredicateEntry {
    pub key: u8,
    pub zeroing: bool,
    pub invert: bool,
    pub integer: bool,
    pub mask: u8,
}

impl From<u16> for RegisterEntry {
    ghost from_gives = { λ word entry. entry ≡ register_entry word };

    fn from(word: u16) -> RegisterEntry {
        RegisterEntry {
            vector: word / 32768 % 2 == 1,
            register: (word / 256 % 128) as u8,
            integer: word / 128 % 2 == 1,
            width: (word / 32 % 4) as u8,
            key: (word % 32) as u8,
        }
    }
}

impl From<u16> for PredicateEntry {
    ghost from_gives = { λ word entry. entry ≡ predicate_entry word };

    fn from(word: u16) -> PredicateEntry {
        PredicateEntry {
            key: (word / 2048 % 32) as u8,
            zeroing: word / 1024 % 2 == 1,
            invert: word / 512 % 2 == 1,
            integer: word / 256 % 2 == 1,
            mask: (word / 2 % 128) as u8,
        }
    }
}

// Whether bit 0 of every predicate entry is zero.
#[tactic(auto, unfolding(crate::specs::Entry::clear_below))]
pub fn all_bit0_clear(entries: &[u16; ENTRIES]) -> bool
    ensures { result ≡ all_bit0_clear entries.now }
{
    // With no branch: less is compiled than of a search for the first that isn't.
    let mut clear = true;
    for entry in entries {
        clear &= !(entry % 2 == 1);
    }
    clear
}

// The entry at an index, and 0 where there is none.
pub fn entry_at(entries: [u16; ENTRIES], index: u32) -> u16
    ensures { result ≡ get_or entries index 0 }
{
    entries.get(index as usize).copied().unwrap_or(0)
}

// The table with one entry replaced.
pub fn with_entry(mut entries: [u16; ENTRIES], index: u32, entry: u16) -> [u16; ENTRIES]
    ensures { result ≡ set entries index entry }
{
    if index < 16 {
        entries[index as usize] = entry;
    }
    entries
}
