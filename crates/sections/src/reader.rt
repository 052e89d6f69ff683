// The section reader: it keeps the lent sheet and its offset together. Each method is thin, over a function of `section` with slice and number, and
// none asks anything of the bytes or of the offset.
ghost use Rattle.std.specs.Prelude.{◌≡◌};
ghost use Rattle.sections.specs.Sections.{entries_of, section_verdict, end_verdict};
ghost use Rattle.sections.specs.Inside.Reader.{rest_of, at_start, past};

use crate::section;
use crate::section::Section;
use crate::verdict::SheetError;

#[derive(Clone, Copy)]
pub struct SectionReader<'a> {
    sheet: &'a [u8],
    at: usize,
}

impl<'a> SectionReader<'a> {
    /// A reader at the start of a sheet.
    pub fn new(sheet: &'a [u8]) -> SectionReader<'a>
        ensures { result ≡ at_start sheet.entry }
    {
        SectionReader { sheet, at: 0 }
    }

    /// Judges the section at the reader's offset, and goes past it.
    pub fn judge(&mut self, section: Section) -> Result<(), SheetError>
        ensures told { result ≡ section_verdict section.size section.least section.most (rest_of self.old) }
        ensures moved { self.new ≡ past self.old section.size }
    {
        let verdict = section::judge(section::rest_at(self.sheet, self.at), section);
        self.at = section::offset_after(self.sheet, self.at, section.size);
        verdict
    }

    /// Its entries, a part of the sheet that the reader was lent; it goes past them.
    pub fn entries(&mut self, section: Section) -> &'a [u8]
        ensures part { result.now ≡ entries_of section.size (rest_of self.old) }
        ensures moved { self.new ≡ past self.old section.size }
    {
        let part = section::entries(section::rest_at(self.sheet, self.at), section.size);
        self.at = section::offset_after(self.sheet, self.at, section.size);
        part
    }

    /// Judges what is left at the reader's offset: nothing may be.
    pub fn judge_end(self) -> Result<(), SheetError>
        ensures { result ≡ end_verdict (rest_of self.entry) }
    {
        if section::rest_at(self.sheet, self.at).is_empty() {
            Ok(())
        } else {
            Err(SheetError::Length)
        }
    }
}
