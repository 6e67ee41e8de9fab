ghost use Rattle.std.specs.Prelude.{ℕ, List as Sequence, ◌≡◌, ◌<◌, ◌≤◌, ◌^◌, ◌⊎◌, All, Some, length, map, string_bytes, IfOk};
ghost use Rattle.po_io.specs.Count.{Rose};
ghost use Rattle.po_straight.specs.declared.definition.Definition.{Definition as Tree};
ghost use Rattle.po_straight.specs.Definitions.{IsFile};
ghost use Rattle.po_ir.specs.declared.project.Project.{Project as ProjectOf};
ghost use Rattle.po_core.specs.declared.report.Report.{Report as ReportOf};
ghost use Rattle.po_pred.specs.declared.pred.Pred.{Pred as PredOf};
ghost use Rattle.po_app.specs.declared.rule.Rule.{Rule as RuleOf};
ghost use Rattle.po_app.specs.Lowering.{IsProject};
ghost use Rattle.po_app.specs.Closed.{IsReport};
ghost use Rattle.po_app.specs.Sound.{Sound};
ghost use Rattle.po_app.specs.Command.{IsCheck};
ghost use Rattle.po_app.specs.Lowered.{IsCounted};
ghost use Rattle.po_app.specs.Ranges.{IsSmallProject};
ghost use Rattle.po_app.specs.Outcome.{named_text, status_of as status_of_report, IsReported, IsReportOrNoMemory, Decides, Answers, Ends, Told};

use crate::laws::report_is_sound;
use crate::lowering::project;
use crate::report_text::report_text;
use crate::rule::Rule;
use crate::solve::report_of;
use crate::status::Status;
use crate::tally::Tally;
use crate::words::file_to_check;
use po_base::{List, Memory, Out, Text};
use po_core::Report;
use po_io::{Files, ReadFail, Sink, read_file, write_all};
use po_ir::Project;
use po_pred::Pred;
use po_straight::{Definition, read_definitions};
use std::alloc::Global;

/// The greatest number of bytes of a file that is served.
const MOST_BYTES: u64 = 16_777_216;

/// What the call will answer, and the text that it will write.
#[derive(Drop)]
struct Decision {
    status: Status,
    text: Vec<u8>,
}

/// The text of one line that names a file.
fn line_of(alloc: Global, what: &[u8], name: &str) -> Result<Vec<u8>, Memory>
    ensures { IfOk result (λ text. text.items ≡ named_text what.now name.now) }
{
    let mut out = Out::new(alloc);
    out.add(what)?;
    out.add(name.as_bytes())?;
    out.add(b"\n")?;
    Ok(out.into_bytes())
}

/// The project of definitions, which are kept no longer.
fn lowered(alloc: Global, name: &str, definitions: List<Definition>) -> Result<Project, Memory>
    requires few { length definitions < 2 ^ 32 }
    requires counted { All IsCounted definitions }
    ensures project { IfOk result (IsProject name.now definitions) }
    ensures small { IfOk result IsSmallProject }
{
    let file = Text::new(alloc, name.as_bytes())?;
    Ok(project(alloc, &file, &definitions)?)
}

/// The report on the definitions of a file.
fn report_on(alloc: Global, name: &str, definitions: List<Definition>) -> Result<Decision, Memory>
    requires few { length definitions < 2 ^ 32 }
    requires counted { All IsCounted definitions }
    ensures { IfOk result (λ decision. IsReported name.now definitions decision.status decision.text.items) }
{
    let project = lowered(alloc, name, definitions)?;
    let report = report_of(alloc, &project)?;
    Ok(Decision {
        status: status_of(&report),
        text: report_text(alloc, &project, &report)?,
    })
}

/// Open where an obligation is left open, and clean otherwise.
fn status_of(report: &Report<Pred, Rule>) -> Status
    ensures { result ≡ status_of_report report.now }
{
    if Tally::of(report.lines.as_slice()).left_open == 0 {
        Status::Clean
    } else {
        Status::Open
    }
}

/// What is decided of a file's bytes.
fn judge(alloc: Global, name: &str, bytes: &[u8]) -> Result<Decision, Memory>
    requires { length bytes.now ≤ 2 ^ 24 }
    ensures { IfOk result (λ decision. Decides name.now bytes.now decision.status decision.text.items) }
{
    match read_definitions(alloc, bytes)? {
        Some(definitions) => Ok(report_on(alloc, name, definitions)?),
        None => Ok(Decision {
            status: Status::Refused,
            text: line_of(alloc, b"refused not-yet ", name)?,
        }),
    }
}

/// What is decided on these words.
fn decide<F: Files>(alloc: Global, words: &Vec<String>, files: &mut F) -> Result<Decision, Memory>
    ensures decided { IfOk result (λ decision. Answers (map string_bytes words.now.items) (F.held files.old) decision.status decision.text.items) }
    ensures read_fault { IfOk result (λ decision. decision.status ≡ Status.ReadFault → (name : Sequence ℕ) → IsCheck (map string_bytes words.now.items) name → Rose (F.faults files.old name) (F.faults files.new name)) }
    ensures held { (other : Sequence ℕ) → F.held files.new other ≡ F.held files.old other }
    ensures counts { (other : Sequence ℕ) → F.faults files.old other ≤ F.faults files.new other }
{
    let Some(name) = file_to_check(words) else {
        return Ok(Decision {
            status: Status::Usage,
            text: Vec::from_slice(alloc, b"usage: cproof check FILE\n")?,
        });
    };
    match read_file(alloc, files, name, MOST_BYTES) {
        Ok(bytes) => Ok(judge(alloc, name, bytes.as_slice())?),
        Err(ReadFail::TooLong) => Ok(Decision {
            status: Status::Refused,
            text: line_of(alloc, b"refused too-long ", name)?,
        }),
        Err(ReadFail::Failed) => Ok(Decision {
            status: Status::ReadFault,
            text: line_of(alloc, b"read-fault ", name)?,
        }),
        Err(ReadFail::Memory) => Err(Memory),
    }
}

/// Writes what was decided.
fn tell<S: Sink>(decision: &Decision, out: &mut S) -> Status
    ensures told { Told decision.now.status decision.now.text.items result (S.written out.old) (S.written out.new) }
    ensures fault { (result ≡ decision.now.status) ⊎ Rose (S.faults out.old) (S.faults out.new) }
{
    match write_all(out, decision.text.as_slice()) {
        Ok(()) => decision.status,
        Err(_) => Status::WriteFault,
    }
}

/// Checks the file that the words name and writes the report, or says why there is none.
///
/// The words are those behind the program's name. What is written is decided whole before the first byte of
/// it is written. Time and memory are linear in the bytes of the file, but for the look-up of names.
pub fn run<F: Files, S: Sink>(
    alloc: Global,
    words: &Vec<String>,
    files: &mut F,
    out: &mut S,
) -> Status
    ensures ends { Ends (map string_bytes words.now.items) (F.held files.old) result (S.written out.old) (S.written out.new) }
    ensures read_fault { result ≡ Status.ReadFault → (name : Sequence ℕ) → IsCheck (map string_bytes words.now.items) name → Rose (F.faults files.old name) (F.faults files.new name) }
    ensures write_fault { result ≡ Status.WriteFault → Rose (S.faults out.old) (S.faults out.new) }
    ensures held { (other : Sequence ℕ) → F.held files.new other ≡ F.held files.old other }

    // With words of the form, no fault and a file that is served, a report is written whole, or memory is wanting.
    ensures complete { (name bytes : Sequence ℕ) (ds : Sequence Tree) → IsCheck (map string_bytes words.now.items) name → F.held files.old name ≡ Some bytes → length bytes ≤ 2 ^ 24 → IsFile ds bytes → (Rose (F.faults files.old name) (F.faults files.new name) → ⊥) → (Rose (S.faults out.old) (S.faults out.new) → ⊥) → IsReportOrNoMemory result }

    // Whatever file of these definitions is reported on: in every run of one of its functions, from any int arguments
    // and of any number of steps, the obligation that is violated first is listed as open.
    ensures sound { (name bytes : Sequence ℕ) (ds : Sequence Tree) (p : ProjectOf) (r : ReportOf PredOf RuleOf) → IsFile ds bytes → IsProject name ds p → IsReport p r → Sound p r }
{
    report_is_sound();
    match decide(alloc, words, files) {
        Ok(decision) => tell(&decision, out),
        Err(_) => Status::NoMemory,
    }
}
