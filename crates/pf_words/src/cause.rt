use std::error::Error;
use std::fmt;
use std::fmt::{Display, Formatter};

/// Why a line of a script is refused. `Display` writes the words that a user is told.
#[derive(Clone, Copy, Debug, PartialEq, Eq)]
pub enum Cause {
    /// More than 2,200,000 bytes, the line feed not counted.
    TooLong,
    /// The last line has bytes and no line feed.
    CutShort,
    /// An empty word: two spaces in a row, or one at an end.
    BadSpacing,
    /// A line of words stands before the pool line.
    NoPool,
    /// There is a pool line already.
    SecondPool,
    /// Too few words, or too many.
    WrongWords,
    /// A word is no number of its range.
    BadNumber,
    /// A space line behind a step line, an admit line or a retire line.
    LateSpace,
    /// A word is no name.
    BadName,
    /// A line before has given this name, also where its namespace is retired.
    NameTwice,
    /// 64 names are given, those of retired namespaces among them.
    TooManyNamespaces,
    /// The reservations up to this line are more than the pool's frames.
    ReservationsExceed { sum: u64, frames: u32 },
    /// No space line and no admit line before gives this name.
    UnknownNamespace,
    /// No call has this name.
    UnknownVerb,
    /// FLAGS that are none, a last word that is not `n`, or neither `on` nor `off`.
    BadFlags,
    /// Neither `-` nor hexadecimal digits in pairs nor COUNT*HH.
    BadData,
}

impl Cause {
    ghost use Rattle.std.specs.Prelude.{◌≡◌};
    ghost use Rattle.pf_words.specs.Causes.{cause_words};

    /// What is wrong in words, without the numbers of `ReservationsExceed`.
    pub fn words(self) -> &'static str
        ensures { result.now ≡ cause_words self }
    {
        match self {
            Cause::TooLong => "too long",
            Cause::CutShort => "cut short",
            Cause::BadSpacing => "bad spacing",
            Cause::NoPool => "no pool",
            Cause::SecondPool => "second pool",
            Cause::WrongWords => "wrong words",
            Cause::BadNumber => "bad number",
            Cause::LateSpace => "late space",
            Cause::BadName => "bad name",
            Cause::NameTwice => "name twice",
            Cause::TooManyNamespaces => "too many namespaces",
            Cause::ReservationsExceed { .. } => "reservations",
            Cause::UnknownNamespace => "unknown namespace",
            Cause::UnknownVerb => "unknown verb",
            Cause::BadFlags => "bad flags",
            Cause::BadData => "bad data",
        }
    }
}

impl Display for Cause {
    ghost use Rattle.std.specs.Prelude.{Some};
    ghost use Rattle.pf_words.specs.Causes.{cause_text};

    ghost output = { λ cause. Some (cause_text cause) };

    fn fmt<W: fmt::Write>(&self, f: &mut Formatter<W>) -> fmt::Result {
        let words = self.words();
        match self {
            Cause::ReservationsExceed { sum, frames } => {
                write!(f, "{words} {sum} exceed pool {frames}")
            }
            _ => write!(f, "{words}"),
        }
    }
}

impl Error for Cause {}
