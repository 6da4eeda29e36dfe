// A no: which question was answered so (document 01, "The questions, in order"; 10 to 12 are a sector's, 13 is a blank entry's). The public face:
//   Refusal           the question
//   Refusal::number   its number
//   number_of         the number of an answer: 0 for a yes
// A function that can be refused answers a `Result` with a `Refusal`, and `?` hands the first no on.
#![tactic(auto)]

ghost use Rattle.std.specs.Prelude.{◌≡◌};
ghost use Rattle.refusal.specs.Refusal.{number, number_of};

#[derive(Clone, Copy, Debug, PartialEq, Eq)]
pub enum Refusal {
    // N, T, a lent length or a mark is out of range.
    Sizes = 1,
    // The state isn't one that a store can be in.
    State = 2,
    // The machine is of another kind.
    Kind = 3,
    // An argument is out of range.
    Argument = 4,
    // A new id is in use, or an answer's waits nowhere.
    Id = 5,
    // Another condition of the step doesn't hold.
    Condition = 6,
    // The bytes don't parse.
    Parse = 7,
    // There is no room.
    Room = 8,
    // A second id is missing, not wanted, or the first once more.
    SecondId = 9,
    // A sector has another length, or other contents.
    Contents = 10,
    // A byte of a sector that should be zero isn't.
    Padding = 11,
    // A sector's check number is wrong.
    CheckNumber = 12,
    // An entry has zeros only.
    Blank = 13,
}

impl Refusal {
    pub fn number(self) -> u8
        ensures { result ≡ number self }
    {
        self as u8
    }
}

// What C and the rows of programs are told of an answer: 0, or the number of the question that was answered no.
pub fn number_of<T>(answer: &Result<T, Refusal>) -> u8
    ensures { result ≡ number_of answer.now }
{
    match answer {
        Ok(_) => 0,
        Err(no) => no.number(),
    }
}
