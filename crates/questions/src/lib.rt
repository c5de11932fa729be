// The questions that document 01 asks, by their numbers. What 1 to 7 ask of a fabric file stands in specs/Questions.antt; what came before
// a record is known by counts and tables, specs/Reading.antt. The crates above have the code: `file_questions`, `record_questions` and
// `entry_questions` ask of a file, `queries` of a query.
#![tactic(auto)]

ghost use Rattle.std.specs.Prelude.{◌≡◌};
ghost use Rattle.questions.specs.Refusals.{number};

// The questions, each by what a no to it refuses.
#[derive(Clone, Copy, PartialEq, Eq)]
pub enum Refusal {
    Size = 1,
    Start,
    Order,
    Ports,
    Tidiness,
    Ends,
    Limits,
    Target,
    HopLimit,
    AskedSet,
    StartPort,
    Room,
    Budget,
    Input,
}

impl Refusal {
    // The question's number. By a name and not as a From, which would need a relation of its own to say what this equation says.
    pub fn number(self) -> u32
        ensures { result ≡ number self }
    {
        self as u32
    }
}

// The first question that got a no, and the place of the record that got it.
#[derive(Clone, Copy)]
pub struct No {
    pub refusal: Refusal,
    pub place: u32,
}
