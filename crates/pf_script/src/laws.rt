ghost use Rattle.pf_script.specs.StepLines.{EachStepHasALine};

use pf_words::each_step_is_read;

/// Each step has a line that says it, where its fields are in the ranges of the grammar and the line isn't longer than
/// a line may be. This function computes nothing: its contract is the law.
pub fn each_step_has_a_line()
    ensures { EachStepHasALine }
{
    each_step_is_read();
}
