// The two kinds of table, and the byte of a contents entry that tells them apart.
ghost use Rattle.std.specs.Prelude.{◌≡◌};
ghost use Rattle.tables.specs.Kinds.{code_of, kind_of};

#[derive(Clone, Copy, PartialEq, Eq)]
pub enum Kind {
    Demand = 1,
    Supply = 2,
}

// A byte that is no kind's.
#[derive(Clone, Copy, PartialEq, Eq)]
pub struct UnknownKind {}

impl Kind {
    // The byte that stands for the kind. A method says which byte it is, where `u8::from` would not.
    pub fn code(self) -> u8
        ensures { result ≡ code_of self }
    {
        self as u8
    }
}

impl TryFrom<u8> for Kind {
    type Error = UnknownKind;

    ghost try_from_gives = { λ code found. found ≡ kind_of code };

    fn try_from(code: u8) -> Result<Self, UnknownKind> {
        match code {
            1 => Ok(Kind::Demand),
            2 => Ok(Kind::Supply),
            _ => Err(UnknownKind {}),
        }
    }
}
