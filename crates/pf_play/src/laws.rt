//! Laws of what a replay promises, and of what the words of the command line ask for. These functions compute nothing:
//! their contracts are the laws.

ghost use Rattle.pf_play.specs.CommandLine.{ChoosesEachName};
ghost use Rattle.pf_play.specs.Texts.{SameText, OneSection};

/// A text is a function of the script's bytes and of the name that is chosen, whatever the frames hold, if no line
/// met want of memory.
pub fn same_text()
    ensures { SameText }
{}

/// With one name chosen the text is the section with this name of the text of all, if no line of either met want of
/// memory, and, where namespaces come and go, the run of all admitted it.
pub fn one_section()
    ensures { OneSection }
{}

/// `--only NAME` and `--only=NAME` choose each name that a namespace may have, and no words choose none.
pub fn each_name_is_chosen()
    ensures { ChoosesEachName }
{}
