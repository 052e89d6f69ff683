// What the runner program reads, taken apart, run, and put into a text.
#![tactic(auto)]

pub mod field;
pub mod file;
pub mod number;
pub mod outcome;
pub mod text;

ghost use Rattle.std.specs.Prelude.{◌≡◌};
ghost use Rattle.report.specs.Report.{report_of};

use basis::answer::Answer;
use basis::numbers::Number;
use file::RunFile;
use sections::Parts;
use store::LONGEST;
use text::Text;

/// What the runner prints for a file.
pub fn report(file: &[u8]) -> Text
    ensures { result ≡ report_of file.now }
{
    let mut text = Text::new();
    let Some(run) = RunFile::parse(file) else {
        let cut = Answer::refusal(Number::SheetLength.into(), 0);
        text.len = outcome::print_refused(cut, &mut text.bytes);
        return text;
    };
    let mut out = [0; LONGEST];
    let answer = beltuqash::run(
        run.sheet,
        run.store,
        u32::from(run.mode),
        run.fuel,
        &mut out,
    );
    text.len = outcome::print(
        answer.into(),
        Parts::of(run.sheet).fields,
        &out,
        &mut text.bytes,
    );
    text
}
