// How the bits of a register are interpreted.
#[derive(Clone, Copy)]
pub enum Signedness {
    Signed,
    Unsigned,
}
