// The refusals of all calls, by name. Their numbers are what a caller in C gets; 0 is none.
ghost use Rattle.std.specs.Prelude.{◌≡◌};
ghost use Rattle.refusals.specs.Refusal as Numbers;

#[derive(Clone, Copy, Debug, PartialEq, Eq)]
pub enum Refusal {
    ShortBlock,
    WrongCheck,
    Reserved,
    Family,
    ArmLength,
    PoseLength,
    Samples,
    NotFinite,
    NoRoom,
    Limits,
    Lock,
    NoneAllowed,
    ArmNumber,
    NotHeld,
    FileFull,
    AnglesLength,
}

impl Refusal {
    pub fn number(self) -> u64
        ensures { result ≡ Numbers.number self }
    {
        match self {
            Refusal::ShortBlock => 1,
            Refusal::WrongCheck => 2,
            Refusal::Reserved => 3,
            Refusal::Family => 4,
            Refusal::ArmLength => 5,
            Refusal::PoseLength => 6,
            Refusal::Samples => 7,
            Refusal::NotFinite => 8,
            Refusal::NoRoom => 9,
            Refusal::Limits => 10,
            Refusal::Lock => 11,
            Refusal::NoneAllowed => 12,
            Refusal::ArmNumber => 13,
            Refusal::NotHeld => 14,
            Refusal::FileFull => 15,
            Refusal::AnglesLength => 18,
        }
    }
}

// The number of what a call refuses, or 0.
pub fn number_of<T: Copy>(outcome: Result<T, Refusal>) -> u64
    ensures { result ≡ Numbers.number_of outcome }
{
    match outcome {
        Ok(_) => 0,
        Err(refusal) => refusal.number(),
    }
}
