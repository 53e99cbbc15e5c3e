ghost use Rattle.pf_words.specs.Spelling.{EachStepIsRead};

/// Each step has words that a script may have in a line, and that are read as that step, where its fields are in the
/// ranges of the grammar: its numbers are of 32 bits (lengths of 64), its modes and its umask are at most 07777, its path
/// is no empty text and has neither a space nor a line feed, and its flags are for reading, for writing or for both. This
/// function computes nothing: its contract is the law.
pub fn each_step_is_read()
    ensures { EachStepIsRead }
{}
