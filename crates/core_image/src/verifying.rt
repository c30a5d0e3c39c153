// Which code is accepted.

ghost use Rattle.std.specs.Prelude.{◌≡◌, ◌+◌, ◌<◌, false, length, IfNone, IfSome, IfOk, IfErr, IsOk, OnOk};
ghost use Rattle.core_image.specs.AcceptedTests.{AreGood, is_good_place, start_of};
ghost use Rattle.core_image.specs.Ranges.{IsInRange};

use crate::spot::Spot;
use core_isa::Code;
use std::marker::Model;

/// The least place of code that isn't accepted.
#[derive(Clone, Copy, Debug, PartialEq, Eq)]
pub struct BadCode {
    /// It counts the code's lines from 0.
    pub place: u32,
}

/// Accepted code, which contracts see as that code: its marks are right at every place, and its main function takes no
/// arguments.
#[derive(Debug, Drop)]
pub struct Verified {
    code: Code,
}

impl Model for Verified {
    ghost use Rattle.core_isa.specs.declared.code.Code.{Code};
    ghost use Rattle.core_image.specs.AcceptedTests.{IsVerified};

    ghost Value = { Code };

    ghost view = { λ v. v.code };

    ghost invariant = { λ v. IsVerified v.code };
}

impl Verified {
    ghost use Rattle.core_isa.specs.Marks.{Marked, HasOrder};
    ghost use Rattle.core_image.specs.Accepted.{MainTakesNothing};

    /// The accepted code.
    pub fn code(&self) -> &Code
        ensures value { result.now ≡ self.now }
        ensures in_range { IsInRange result.now }
        ensures order { HasOrder result.now }
        ensures marked { Marked result.now }
        ensures main { MainTakesNothing result.now }
    {
        &self.code
    }
}

ghost use Rattle.core_isa.specs.Marks.{Marked};
ghost use Rattle.core_isa.specs.Sound.{NeverStuck};
ghost use Rattle.core_image.specs.Accepted.{IsLeastBad, MainTakesNothing};

/// Accepts code whose marks are right at every place and whose main function takes no arguments, and keeps it; else
/// names the least place that fails. A main function that takes arguments fails at its first place. It goes once over
/// the code and takes no memory.
pub fn verify(code: Code) -> Result<Verified, BadCode>
    requires { IsInRange code }
    // Accepted code is kept, and no run of it is ever stuck.
    ensures kept { IfOk result (λ verified. verified ≡ code) }
    ensures marked { OnOk result (Marked code) }
    ensures main { OnOk result (MainTakesNothing code) }
    ensures safe { OnOk result (NeverStuck code) }
    // Such code is accepted, and of other code the least bad place is named.
    ensures only { Marked code → MainTakesNothing code → IsOk result }
    ensures bad { IfErr result (λ bad. IsLeastBad code bad.place) }
{
    match first_bad(&code) {
        Some(place) => Err(BadCode { place }),
        None => Ok(Verified { code }),
    }
}

// Where the function of an index begins; the end of the code behind the last function.
fn start(code: &Code, index: usize) -> u32
    requires { IsInRange code.now }
    ensures { result ≡ start_of code.now index }
{
    match code.functions.items().get(index) {
        Some(function) => function.first,
        None => code.lines.items().len() as u32,
    }
}

// The least place of the function of an index that isn't good.
fn first_bad_of(code: &Code, index: usize) -> Option<u32>
    requires in_range { IsInRange code.now }
    requires there { index < length code.now.functions }
    ensures none { IfNone result (AreGood code.now (start_of code.now index) (start_of code.now (index + 1))) }
    ensures within { IfSome result (λ place. place < start_of code.now (index + 1)) }
    ensures bad { IfSome result (λ place. is_good_place code.now place ≡ false) }
    ensures least { IfSome result (λ place. AreGood code.now (start_of code.now index) place) }
{
    let function = code.functions.items()[index];
    let begin = start(code, index);
    let end = start(code, index + 1);
    for place in begin..end {
        let spot = Spot {
            code,
            function,
            end,
            place,
        };
        if !spot.is_good() {
            return Some(place);
        }
    }
    None
}

// The least place of some code that isn't good.
fn first_bad(code: &Code) -> Option<u32>
    requires { IsInRange code.now }
    ensures none { IfNone result (AreGood code.now 0 (length code.now.lines)) }
    ensures within { IfSome result (λ place. place < length code.now.lines) }
    ensures bad { IfSome result (λ place. is_good_place code.now place ≡ false) }
    ensures least { IfSome result (λ place. AreGood code.now 0 place) }
{
    for index in 0..code.functions.items().len() {
        if let Some(place) = first_bad_of(code, index) {
            return Some(place);
        }
    }
    None
}
