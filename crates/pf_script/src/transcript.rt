ghost use Rattle.std.specs.Prelude.{◌≡◌, ◌+◌, ◌<◌, ◌^◌, List, length, map, slice_index_or, OnOk, OnErr};
ghost use Rattle.std.specs.List.{All};
ghost use Rattle.pf_base.specs.declared.admission.EventAnswer.{EventAnswer};
ghost use Rattle.pf_base.specs.declared.admission.EventAnswer.TheVariants.{Gone};
ghost use Rattle.pf_script.specs.Ports.{IsWritten, IsCut};
ghost use Rattle.pf_script.specs.Puts.{Puts};
ghost use Rattle.pf_script.specs.Text.{line_text, lines_text, section, sections, section_at, answers_of, chosen, print, text, sections_apart, AreApart, IsAnswered};
ghost use Rattle.pf_script.specs.Answers.{answers_in};

use crate::answers::{Answers, put_at};
use crate::count::Count;
use crate::port::{Sink, WriteFault};
use crate::printer::Printer;
use crate::script::Script;
use crate::text::put_header;
use crate::told::Told;
use pf_base::EventAnswer;

/// Puts the line of the answer at this place, with the next number among its namespace's.
#[inline(always)]
fn put_line<W: Sink>(
    out: &mut Printer,
    writer: &mut W,
    number: &mut Count,
    answers: Answers<'_>,
    place: usize,
)
    requires within { place < length (answers_in answers) }
    requires few { number.old + 1 < 2 ^ 64 }
    ensures put { Puts (W.output writer.old) out.old (W.output writer.new) out.new
        (line_text (number.old + 1) (slice_index_or (answers_in answers.entry) place Gone)) }
    ensures number { number.new ≡ number.old + 1 }
{
    number.step();
    out.put(writer, number.digits());
    out.put(writer, b": ");
    put_at(out, writer, answers, place);
    out.put(writer, b"\n");
}

/// Puts the lines of these answers.
fn put_lines<W: Sink>(out: &mut Printer, writer: &mut W, answers: Answers<'_>)
    ensures { Puts (W.output writer.old) out.old (W.output writer.new) out.new (lines_text 1 (answers_in answers.entry)) }
{
    let mut number = Count::zero();
    for i in 0..answers.len() {
        if out.has_failed() {
            return;
        }
        put_line(out, writer, &mut number, answers, i);
    }
}

/// Puts the lines of the answers at these places.
fn put_chosen<W: Sink>(out: &mut Printer, writer: &mut W, answers: Answers<'_>, places: &[u32])
    requires { All (λ i. i < length (answers_in answers)) places.now }
    ensures { Puts (W.output writer.old) out.old (W.output writer.new) out.new
        (lines_text 1 (chosen (answers_in answers.entry) places.now)) }
{
    let mut number = Count::zero();
    for i in 0..places.len() {
        if out.has_failed() {
            return;
        }
        put_line(out, writer, &mut number, answers, places[i] as usize);
    }
}

/// Puts the section of one namespace, where these are the answers to all steps.
fn put_section<W: Sink>(
    out: &mut Printer,
    writer: &mut W,
    script: &Script,
    ns: usize,
    answers: Answers<'_>,
)
    requires exists { ns < length script.now.spaces }
    requires answered { length (answers_in answers) ≡ length script.now.steps }
    ensures { Puts (W.output writer.old) out.old (W.output writer.new) out.new
        (section_at script.now (answers_of script.now.steps (answers_in answers.entry) ns) ns) }
{
    put_header(out, writer, script.name(ns));
    put_chosen(out, writer, answers, script.places(ns));
}

/// Puts the sections of all namespaces.
fn put_sections<W: Sink>(out: &mut Printer, writer: &mut W, script: &Script, answers: Answers<'_>)
    requires { length (answers_in answers) ≡ length script.now.steps }
    ensures { Puts (W.output writer.old) out.old (W.output writer.new) out.new
        (print script.now (answers_in answers.entry)) }
{
    for ns in 0..script.count_spaces() {
        if out.has_failed() {
            return;
        }
        put_section(out, writer, script, ns, answers);
    }
}

/// Puts the section of one namespace, where these are the answers to its own steps.
fn put_alone<W: Sink>(
    out: &mut Printer,
    writer: &mut W,
    script: &Script,
    ns: usize,
    answers: Answers<'_>,
)
    requires { ns < length script.now.spaces }
    ensures { Puts (W.output writer.old) out.old (W.output writer.new) out.new
        (section_at script.now (answers_in answers.entry) ns) }
{
    put_header(out, writer, script.name(ns));
    put_lines(out, writer, answers);
}

/// Puts the sections of all namespaces, where these are the answers to the steps of each.
fn put_apart<W: Sink>(out: &mut Printer, writer: &mut W, script: &Script, own: &[Vec<Told>])
    requires { length own.now ≡ length script.now.spaces }
    ensures { Puts (W.output writer.old) out.old (W.output writer.new) out.new
        (sections_apart script.now.spaces (map (λ v. v.items) own.now)) }
{
    for ns in 0..own.len() {
        if out.has_failed() {
            return;
        }
        put_alone(out, writer, script, ns, Answers::Short(own[ns].as_slice()));
    }
}

/// Puts the text of these answers, or the section of the namespace that is chosen.
fn put_text<W: Sink>(
    out: &mut Printer,
    writer: &mut W,
    script: &Script,
    answers: Answers<'_>,
    only: Option<u32>,
)
    requires { IsAnswered script.now (answers_in answers) only }
    ensures { Puts (W.output writer.old) out.old (W.output writer.new) out.new
        (text script.now (answers_in answers.entry) only) }
{
    match only {
        None => put_sections(out, writer, script, answers),
        Some(ns) => put_alone(out, writer, script, ns as usize, answers),
    }
}

/// `print` of answers in either form.
fn print_either<W: Sink>(
    writer: &mut W,
    script: &Script,
    answers: Answers<'_>,
    only: Option<u32>,
) -> Result<(), WriteFault>
    requires { IsAnswered script.now (answers_in answers) only }
    ensures written { OnOk result
        (IsWritten (W.output writer.old) (W.output writer.new) (text script.now (answers_in answers.entry) only)) }
    ensures cut { OnErr result
        (IsCut (W.output writer.old) (W.output writer.new) (text script.now (answers_in answers.entry) only)) }
{
    let mut out = Printer::new();
    put_text(&mut out, writer, script, answers, only);
    out.finish(writer)
}

/// Prints the text of the answers to a script's lines: of each namespace its name and a line for each of its lines
/// behind the space lines. With the number of one namespace the answers are those to its own lines, and its section
/// alone is printed.
///
/// No memory is taken: the text goes through a buffer of fixed size. The writer isn't asked again after a write that
/// was refused; a front of the text was written then.
pub fn print<W: Sink>(
    writer: &mut W,
    script: &Script,
    answers: &[EventAnswer],
    only: Option<u32>,
) -> Result<(), WriteFault>
    requires { IsAnswered script.now answers.now only }
    ensures written { OnOk result
        (IsWritten (W.output writer.old) (W.output writer.new) (text script.now answers.now only)) }
    ensures cut { OnErr result
        (IsCut (W.output writer.old) (W.output writer.new) (text script.now answers.now only)) }
{
    print_either(writer, script, Answers::Whole(answers), only)
}

/// `print` of answers in little room.
pub fn print_told<W: Sink>(
    writer: &mut W,
    script: &Script,
    answers: &[Told],
    only: Option<u32>,
) -> Result<(), WriteFault>
    requires { IsAnswered script.now answers.now only }
    ensures written { OnOk result
        (IsWritten (W.output writer.old) (W.output writer.new) (text script.now answers.now only)) }
    ensures cut { OnErr result
        (IsCut (W.output writer.old) (W.output writer.new) (text script.now answers.now only)) }
{
    print_either(writer, script, Answers::Short(answers), only)
}

/// `print` of all answers, where those to the steps of each namespace stand side by side: each is read once, from front
/// to back, and not with the answers of the other namespaces between.
pub fn print_apart<W: Sink>(
    writer: &mut W,
    script: &Script,
    own: &[Vec<Told>],
) -> Result<(), WriteFault>
    requires { length own.now ≡ length script.now.spaces }
    ensures written { (answers : List EventAnswer) → AreApart script.now answers (map (λ v. v.items) own.now) → OnOk result
        (IsWritten (W.output writer.old) (W.output writer.new) (print script.now answers)) }
    ensures cut { (answers : List EventAnswer) → AreApart script.now answers (map (λ v. v.items) own.now) → OnErr result
        (IsCut (W.output writer.old) (W.output writer.new) (print script.now answers)) }
{
    let mut out = Printer::new();
    put_apart(&mut out, writer, script, own);
    out.finish(writer)
}
