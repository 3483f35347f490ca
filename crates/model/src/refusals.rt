// Why the box says no.
ghost use Rattle.std.specs.Prelude.{◌≡◌, ◌↔◌, IsTrue, IsOk, IfErr};
ghost use Rattle.model.specs.Refusals.{number_of};

#[derive(Clone, Copy, PartialEq, Eq, Debug)]
pub enum Refusal {
    NoRecords = 1,
    WrongLengths = 2,
    NotHeld = 3,
    NoSuchField = 4,
    Full = 5,
    TooManyHolds = 6,
    ListNotEmpty = 7,
    OutputTooShort = 8,
    EndsEarly = 9,
    BreaksRule = 10,
    BytesFollow = 11,
    AbsentRecord = 12,
    NotReachable = 13,
    BadLine = 14,
}

impl Refusal {
    // The number by which the box says it: its discriminant. `From` would only say the same under another name.
    pub fn number(self) -> u8
        ensures value { result ≡ number_of self }
    {
        self as u8
    }

    // This refusal, unless the fact holds.
    pub fn unless(self, fact: bool) -> Result<(), Refusal>
        ensures passed { IsOk result ↔ IsTrue fact }
        ensures refused { IfErr result (λ why. why ≡ self) }
    {
        fact.then_some(()).ok_or(self)
    }
}
