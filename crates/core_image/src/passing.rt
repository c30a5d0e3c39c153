// Going over the fields of an image without keeping any, which takes no memory.

ghost use Rattle.std.specs.Prelude.{◌≤◌};
ghost use Rattle.core_image.specs.Reading.{Passes, name_at, times_at, functions_at, line_at, image_at};

use crate::reader::{Reader, WrongField};

impl Reader<'_> {
    // Passes so many names.
    fn pass_names(&mut self, count: u16) -> Result<(), WrongField>
        ensures { Passes result self.new.rest.now (times_at name_at count self.old.rest.now) }
    {
        for _ in 0..count {
            let _ = self.name()?;
        }
        Ok(())
    }

    // Passes so many functions of code with so many instructions.
    fn pass_functions(&mut self, count: u16, lines: u32) -> Result<(), WrongField>
        requires { 1 ≤ lines }
        ensures { Passes result self.new.rest.now (functions_at count 0 0 lines self.old.rest.now) }
    {
        let mut least = 0;
        let mut most = 0;
        for _ in 0..count {
            let function = self.function(least, most)?;
            least = function.first + 1;
            most = lines - 1;
        }
        Ok(())
    }

    // Passes so many instructions.
    fn pass_lines(&mut self, count: u32) -> Result<(), WrongField>
        ensures { Passes result self.new.rest.now (times_at line_at count self.old.rest.now) }
    {
        for _ in 0..count {
            let _ = self.line()?;
        }
        Ok(())
    }

    /// Passes an image, behind which bytes may follow.
    #[tactic(auto, unfolding(crate::specs::Reading::image_at))]
    pub fn pass_image(&mut self) -> Result<(), WrongField>
        ensures { Passes result self.new.rest.now (image_at self.old.rest.now) }
    {
        self.magic()?;
        let functions = self.short(1, 256)?;
        let _ = self.short(0, functions - 1)?;
        let names = self.short(0, u16::MAX)?;
        let lines = self.long(functions as u32, 262_144)?;
        self.pass_names(names)?;
        self.pass_functions(functions, lines)?;
        self.pass_lines(lines)
    }
}
