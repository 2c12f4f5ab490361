// The entries that a CFG enables, in both tables.
ghost use Rattle.std.specs.Prelude.{◌≡◌};
ghost use Rattle.tables.specs.Enabled.{enabled_range};

// The entries from `first` on and below `end`.
#[derive(Clone, Copy)]
pub struct Range {
    pub first: usize,
    pub end: usize,
}

pub fn enabled_range(cfg: u32) -> Range
    ensures { result ≡ enabled_range cfg }
{
    let first = (2 * (cfg % 8)) as usize;
    if cfg == 31 {
        return Range { first, end: first };
    }
    let size = cfg / 8 % 4;
    Range {
        first,
        end: (first + (2 << size)).min(16),
    }
}
