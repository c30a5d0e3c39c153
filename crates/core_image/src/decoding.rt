// Bytes to code.

ghost use Rattle.std.specs.Prelude.{◌≡◌, ℕ, ◌-◌, ◌<◌, ◌≤◌, ◌^◌, map, length, IfErr, IfOk, MatchResult};
ghost use Rattle.core_image.specs.Parts.{parts_of, parts_of_line};
ghost use Rattle.core_image.specs.Reading.{Gives, Reads, name_at, times_at, function_at, functions_at, mark_at, line_at, image_at};
ghost use Rattle.core_image.specs.Fields.{HasFault};
ghost use Rattle.core_image.specs.Answers.{IsEndOf, IsMemory};
ghost use Rattle.core_image.specs.Ranges.{IsInRange};
ghost use Rattle.core_image.specs.Spelling.{image_of};
ghost use Rattle.core_image.specs.Table.{image};

use crate::end::ImageEnd;
use crate::reader::{ReadEnd, Reader, WrongField};
use core_isa::{Code, CodeFunction, CodeFunctionList, CodeLine, CodeLineList, Mark, NameList};
use rtio_types::Name;
use std::alloc::Global;

impl Reader<'_> {
    /// A name.
    #[tactic(auto, unfolding(crate::specs::Reading::name_at, crate::specs::Reading::byte_at))]
    pub fn name(&mut self) -> Result<Name, WrongField>
        ensures { Reads (λ name. name) result self.new.rest.now (name_at self.old.rest.now) }
    {
        let len = self.byte(1, 32)?;
        self.text(len)
    }

    // So many names.
    fn names(&mut self, alloc: Global, count: u16) -> Result<Vec<Name>, ReadEnd>
        ensures { Gives (λ v. v.items) result self.new.rest.now (times_at name_at count self.old.rest.now) }
    {
        let mut names = Vec::new(alloc);
        for _ in 0..count {
            let name = self.name()?;
            names.push(name)?;
        }
        Ok(names)
    }

    /// A function whose first place lies in a range.
    #[tactic(auto, unfolding(crate::specs::Reading::function_at))]
    pub fn function(&mut self, least: u32, most: u32) -> Result<CodeFunction, WrongField>
        ensures most { IfOk result (λ f. f.first ≤ most) }
        ensures read { Reads (λ f. f) result self.new.rest.now (function_at least most self.old.rest.now) }
    {
        let first = self.long(least, most)?;
        let params = self.byte(0, 8)?;
        let slots = self.short(params as u16, u16::MAX)?;
        let flags = self.byte(0, 3)?;
        Ok(CodeFunction {
            first,
            params,
            slots,
            value: flags % 2 == 1,
            plain: flags / 2 == 1,
        })
    }

    // So many functions of code with so many instructions.
    fn functions(
        &mut self,
        alloc: Global,
        count: u16,
        lines: u32,
    ) -> Result<Vec<CodeFunction>, ReadEnd>
        requires { 1 ≤ lines }
        ensures { Gives (λ v. v.items) result self.new.rest.now (functions_at count 0 0 lines self.old.rest.now) }
    {
        let mut functions = Vec::new(alloc);
        let mut least = 0;
        let mut most = 0;
        for _ in 0..count {
            let function = self.function(least, most)?;
            least = function.first + 1;
            most = lines - 1;
            functions.push(function)?;
        }
        Ok(functions)
    }

    // A mark.
    #[tactic(auto, unfolding(crate::specs::Reading::mark_at))]
    fn mark(&mut self) -> Result<Mark, WrongField>
        ensures { Reads (λ m. m) result self.new.rest.now (mark_at self.old.rest.now) }
    {
        let height = self.byte(0, u8::MAX)?;
        let tries = self.byte(0, u8::MAX)?;
        let rec = self.byte(0, u8::MAX)?;
        Ok(Mark { height, tries, rec })
    }

    /// An instruction with its mark.
    #[tactic(auto, unfolding(crate::specs::Reading::line_at, crate::specs::Reading::byte_at))]
    pub fn line(&mut self) -> Result<CodeLine, WrongField>
        ensures { Reads parts_of_line result self.new.rest.now (line_at self.old.rest.now) }
    {
        let op = self.byte(0, 50)?;
        let mark = self.mark()?;
        let instr = self.operands(op)?;
        Ok(CodeLine { instr, mark })
    }

    // So many instructions.
    fn lines(&mut self, alloc: Global, count: u32) -> Result<Vec<CodeLine>, ReadEnd>
        ensures { Gives (λ v. map parts_of_line v.items) result self.new.rest.now (times_at line_at count self.old.rest.now) }
    {
        let mut lines = Vec::new(alloc);
        for _ in 0..count {
            let line = self.line()?;
            lines.push(line)?;
        }
        Ok(lines)
    }

    // An image, behind which bytes may follow.
    #[tactic(auto, unfolding(crate::specs::Reading::image_at))]
    fn image(&mut self, alloc: Global) -> Result<Code, ReadEnd>
        ensures { Gives parts_of result self.new.rest.now (image_at self.old.rest.now) }
    {
        self.magic()?;
        let functions = self.short(1, 256)?;
        let main = self.short(0, functions - 1)?;
        let names = self.short(0, u16::MAX)?;
        let lines = self.long(functions as u32, 262_144)?;
        let names = NameList::of(self.names(alloc, names)?);
        let functions = CodeFunctionList::of(self.functions(alloc, functions, lines)?);
        let lines = CodeLineList::of(self.lines(alloc, lines)?);
        Ok(Code {
            main,
            names,
            functions,
            lines,
        })
    }
}

/// The code that an image spells. Where the bytes are no image, the fault names the place of the first wrong field, also
/// where memory is refused before that field is read.
pub fn decode(alloc: Global, bytes: &[u8]) -> Result<Code, ImageEnd>
    // The bytes are the image of the code that is found.
    ensures in_range { IfOk result (λ code. IsInRange code) }
    ensures found { IfOk result (λ code. bytes.now ≡ image_of code) }
    // Of an image the code is found, unless memory runs out; of other bytes the first wrong field is named, even then.
    ensures only { (code : Code) → IsInRange code → bytes.now ≡ image_of code →
        MatchResult result (λ found. found ≡ code) IsMemory }
    ensures fault { IfErr result (IsEndOf bytes.now) }
    ensures refused { (place : ℕ) → HasFault image bytes.now place → result ≡ Err (ImageEnd.Fault place) }
{
    let mut reader = Reader { rest: bytes };
    match reader.image(alloc) {
        Ok(code) if reader.rest.is_empty() => Ok(code),
        Ok(_) => Err(fault_at(bytes, reader.rest)),
        Err(ReadEnd::Wrong) => Err(fault_at(bytes, reader.rest)),
        Err(ReadEnd::Memory) => Err(end_without_memory(bytes)),
    }
}

// Why some bytes give no code where memory was refused: a wrong field, if they have one.
fn end_without_memory(bytes: &[u8]) -> ImageEnd
    ensures only { (code : Code) → IsInRange code → bytes.now ≡ image_of code → IsMemory result }
    ensures fault { IsEndOf bytes.now result }
    ensures refused { (place : ℕ) → HasFault image bytes.now place → result ≡ ImageEnd.Fault place }
{
    let mut reader = Reader { rest: bytes };
    match reader.pass_image() {
        Ok(()) if reader.rest.is_empty() => ImageEnd::Memory,
        Ok(()) => fault_at(bytes, reader.rest),
        Err(WrongField) => fault_at(bytes, reader.rest),
    }
}

// A fault at the place where the rest of some bytes begins.
fn fault_at(bytes: &[u8], rest: &[u8]) -> ImageEnd
    requires within { length rest.now ≤ length bytes.now }
    requires few { length bytes.now - length rest.now < 2 ^ 32 }
    ensures { result ≡ ImageEnd.Fault (length bytes.now - length rest.now) }
{
    ImageEnd::Fault {
        offset: (bytes.len() - rest.len()) as u32,
    }
}
