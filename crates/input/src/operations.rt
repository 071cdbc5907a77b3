// The operations, and the number of each in the head of a question.
ghost use Rattle.std.specs.Prelude.{◌≡◌};
ghost use Rattle.input.specs.Operations.{operation_of};

#[derive(Clone, Copy)]
pub enum Operation {
    Open,
    Body,
    Moves,
    Decide,
    Run,
    Join,
    Report,
    Readers,
    Constants,
    Graph,
    Explain,
    Pick,
    Reach,
    Merge,
}

// A number that is no operation's.
#[derive(Clone, Copy)]
pub struct UnknownOperation {}

impl TryFrom<usize> for Operation {
    type Error = UnknownOperation;

    ghost try_from_gives = { λ number found. found ≡ operation_of number };

    #[tactic(auto, unfolding(crate::specs::Operations::operation_of))]
    fn try_from(number: usize) -> Result<Self, UnknownOperation> {
        match number {
            0 => Ok(Operation::Open),
            1 => Ok(Operation::Body),
            2 => Ok(Operation::Moves),
            3 => Ok(Operation::Decide),
            4 => Ok(Operation::Run),
            5 => Ok(Operation::Join),
            6 => Ok(Operation::Report),
            7 => Ok(Operation::Readers),
            8 => Ok(Operation::Constants),
            9 => Ok(Operation::Graph),
            10 => Ok(Operation::Explain),
            11 => Ok(Operation::Pick),
            12 => Ok(Operation::Reach),
            13 => Ok(Operation::Merge),
            _ => Err(UnknownOperation {}),
        }
    }
}
