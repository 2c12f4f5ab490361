ghost use Rattle.std.specs.Prelude.{◌≡◌};
ghost use Rattle.scalar.specs.Width.{bytes_of};

// The widths of an access: 8, 4, 2 or 1 bytes.
#[derive(Clone, Copy)]
pub enum Width {
    Double,
    Word,
    Half,
    Byte,
}

impl Width {
    pub fn bytes(self) -> u64
        ensures { result ≡ bytes_of self }
    {
        match self {
            Width::Byte => 1,
            Width::Half => 2,
            Width::Word => 4,
            Width::Double => 8,
        }
    }
}
