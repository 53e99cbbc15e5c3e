use pf_base::Step;

/// What a line behind the space lines says of the namespace that it names.
#[derive(Debug, PartialEq, Eq, Drop)]
pub enum Line {
    /// A step of it: NAME VERB and the words behind it.
    Step(Step),
    /// It is admitted, with the limits that the line gives: admit NAME RESERVE [SOFT [HARD [MAX]]].
    Admit,
    /// It is retired: retire NAME.
    Retire,
}
