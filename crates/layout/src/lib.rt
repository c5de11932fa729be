// The version of a fabric file, and how many records of each kind it has. What the bytes say is in specs/Words.antt and specs/Records.antt;
// how many they may be, in specs/Limits.antt. Document 01, "The fabric file". The code that reads them is in `records`.
#![tactic(auto)]

ghost use Rattle.std.specs.Prelude.{◌≡◌};
ghost use Rattle.layout.specs.Versions.{header_words};

// The words of a header in a file of version 1; version 2 has twice as many.
pub const HALF: usize = 4;

// The two versions of the file.
#[derive(Clone, Copy, PartialEq, Eq)]
pub enum Version {
    One,
    Two,
}

impl Version {
    // The words of a header.
    pub fn words(self) -> usize
        ensures { result ≡ header_words self }
    {
        match self {
            Version::One => HALF,
            Version::Two => 2 * HALF,
        }
    }
}

// The version of a file, and how many records of each kind it has.
#[derive(Clone, Copy)]
pub struct Counts {
    pub version: Version,
    pub edges: usize,
    pub links: usize,
    pub entries: usize,
}
