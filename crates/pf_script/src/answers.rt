ghost use Rattle.std.specs.Prelude.{◌≡◌, ◌<◌, length, slice_index_or};
ghost use Rattle.pf_base.specs.declared.admission.EventAnswer.TheVariants.{Gone};
ghost use Rattle.pf_script.specs.Puts.{Puts};
ghost use Rattle.pf_script.specs.Text.{event_text};
ghost use Rattle.pf_script.specs.Answers.{answers_in};

use crate::port::Sink;
use crate::printer::Printer;
use crate::text::put_event;
use crate::told::{Told, put_told};
use pf_base::EventAnswer;

/// The answers to lines, in either of the forms that they are kept in.
#[derive(Debug, Clone, Copy)]
pub enum Answers<'a> {
    Whole(&'a [EventAnswer]),
    Short(&'a [Told]),
}

impl<'a> Answers<'a> {
    /// How many there are.
    #[inline(always)]
    pub fn len(self) -> usize
        ensures { result ≡ length (answers_in self.entry) }
    {
        match self {
            Answers::Whole(all) => all.len(),
            Answers::Short(all) => all.len(),
        }
    }
}

/// Puts the answer at this place.
#[inline(always)]
pub fn put_at<W: Sink>(out: &mut Printer, writer: &mut W, answers: Answers<'_>, place: usize)
    requires { place < length (answers_in answers) }
    ensures { Puts (W.output writer.old) out.old (W.output writer.new) out.new
        (event_text (slice_index_or (answers_in answers.entry) place Gone)) }
{
    match answers {
        Answers::Whole(all) => put_event(out, writer, &all[place]),
        Answers::Short(all) => put_told(out, writer, &all[place]),
    }
}
