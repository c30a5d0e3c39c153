// The functions and methods that the language has of itself.

ghost use Rattle.std.specs.Prelude.{◌≡◌};
ghost use Rattle.kern_calls.specs.Calls.{builtin_named, builtin_result, builtin_takes, builtin_is_live, object_named, method_of, method_named, operation_result, operation_takes, is_live};

use crate::wanted::Wanted;
use kern_syntax::DeclaredType;
use rtio_types::{ChannelKind, channel_named, kind_of};

/// A function of the language itself. The calls are the ARTIQ manual's, their types this project's own.
#[derive(Clone, Copy, Debug, PartialEq, Eq)]
pub enum Builtin {
    /// The cursor in machine units (mu).
    NowMu,
    /// Sets the cursor, in mu.
    AtMu,
    /// Moves the cursor, in mu.
    DelayMu,
    /// Sets a dataset to a number or an array.
    SetDataset,
    /// The length of an array.
    Len,
    /// A number wrapped to 32 bits.
    ToInt32,
    /// A number of 64 bits.
    ToInt64,
}

/// An object that has methods.
#[derive(Clone, Copy, Debug, PartialEq, Eq)]
pub enum Object {
    Core,
    CoreDma,
    /// A channel of the board with its kind and its number.
    Channel(ChannelKind, u8),
}

/// What a method does, with the channel that it is called on.
#[derive(Clone, Copy, Debug, PartialEq, Eq)]
pub enum Operation {
    On(u8),
    Off(u8),
    Pulse(u8),
    Write(u8),
    GateRising(u8),
    GateFalling(u8),
    GateBoth(u8),
    Timestamp(u8),
    Count(u8),
    Counter,
    BreakRealtime,
    Reset,
    WaitUntil,
    Playback,
    PlaybackHandle,
    GetHandle,
    Erase,
}

/// The language's own function of a name.
pub fn builtin_named(name: &[u8]) -> Option<Builtin>
    ensures { result ≡ builtin_named name.now }
{
    if name == b"now_mu".as_slice() {
        Some(Builtin::NowMu)
    } else if name == b"at_mu".as_slice() {
        Some(Builtin::AtMu)
    } else if name == b"delay_mu".as_slice() {
        Some(Builtin::DelayMu)
    } else if name == b"set_dataset".as_slice() {
        Some(Builtin::SetDataset)
    } else if name == b"len".as_slice() {
        Some(Builtin::Len)
    } else if name == b"int32".as_slice() {
        Some(Builtin::ToInt32)
    } else if name == b"int64".as_slice() {
        Some(Builtin::ToInt64)
    } else {
        None
    }
}

impl Builtin {
    ghost use Rattle.std.specs.Prelude.{◌≡◌};
    ghost use Rattle.kern_calls.specs.Calls.{builtin_result, builtin_takes, builtin_is_live};

    /// The type of its value, if it has one.
    pub fn result(self) -> Option<DeclaredType>
        ensures { result ≡ builtin_result self }
    {
        match self {
            Builtin::NowMu | Builtin::ToInt64 => Some(DeclaredType::Int64),
            Builtin::Len | Builtin::ToInt32 => Some(DeclaredType::Int32),
            Builtin::AtMu | Builtin::DelayMu | Builtin::SetDataset => None,
        }
    }

    /// What it takes.
    pub fn takes(self) -> &'static [Wanted]
        ensures { result.now ≡ builtin_takes self }
    {
        match self {
            Builtin::NowMu => &[],
            Builtin::SetDataset => &[Wanted::Text, Wanted::Int64OrArray],
            Builtin::Len => &[Wanted::Array],
            _ => &[Wanted::Int64],
        }
    }

    /// Whether it asks the core for more than outputs or opens an input's gate.
    pub fn is_live(self) -> bool
        ensures { result ≡ builtin_is_live self }
    {
        matches!(self, Builtin::SetDataset)
    }
}

/// The object of a name.
pub fn object_named(name: &[u8]) -> Option<Object>
    ensures { result ≡ object_named name.now }
{
    if name == b"core".as_slice() {
        return Some(Object::Core);
    }
    if name == b"core_dma".as_slice() {
        return Some(Object::CoreDma);
    }
    match channel_named(name) {
        Some(number) => match kind_of(number) {
            Some(kind) => Some(Object::Channel(kind, number)),
            None => None,
        },
        None => None,
    }
}

/// The method of a name of the object of a name, if there are both.
pub fn method_named(object: &[u8], name: &[u8]) -> Option<Operation>
    ensures { result ≡ method_named object.now name.now }
{
    match object_named(object) {
        Some(object) => method_of(object, name),
        None => None,
    }
}

/// The method of a name of an object.
pub fn method_of(object: Object, name: &[u8]) -> Option<Operation>
    ensures { result ≡ method_of (Some object) name.now }
{
    match object {
        Object::Core => core_method(name),
        Object::CoreDma => core_dma_method(name),
        Object::Channel(ChannelKind::Out, number) => output_method(number, name),
        Object::Channel(ChannelKind::OutRaw, number) => raw_method(number, name),
        Object::Channel(ChannelKind::Input, number) => input_method(number, name),
    }
}

ghost use Rattle.std.specs.Prelude.{Some};
ghost use Rattle.kern_calls.specs.declared.calls.Object.TheVariants as O;
ghost use Rattle.rtio_types.specs.declared.board.ChannelKind.TheVariants as K;

fn core_method(name: &[u8]) -> Option<Operation>
    ensures { result ≡ method_of (Some O.Core) name.now }
{
    if name == b"get_rtio_counter_mu".as_slice() {
        Some(Operation::Counter)
    } else if name == b"break_realtime".as_slice() {
        Some(Operation::BreakRealtime)
    } else if name == b"reset".as_slice() {
        Some(Operation::Reset)
    } else if name == b"wait_until_mu".as_slice() {
        Some(Operation::WaitUntil)
    } else {
        None
    }
}

fn core_dma_method(name: &[u8]) -> Option<Operation>
    ensures { result ≡ method_of (Some O.CoreDma) name.now }
{
    if name == b"playback".as_slice() {
        Some(Operation::Playback)
    } else if name == b"playback_handle".as_slice() {
        Some(Operation::PlaybackHandle)
    } else if name == b"get_handle".as_slice() {
        Some(Operation::GetHandle)
    } else if name == b"erase".as_slice() {
        Some(Operation::Erase)
    } else {
        None
    }
}

fn output_method(number: u8, name: &[u8]) -> Option<Operation>
    ensures { result ≡ method_of (Some (O.Channel K.Out number)) name.now }
{
    if name == b"on".as_slice() {
        Some(Operation::On(number))
    } else if name == b"off".as_slice() {
        Some(Operation::Off(number))
    } else if name == b"pulse_mu".as_slice() {
        Some(Operation::Pulse(number))
    } else {
        None
    }
}

fn raw_method(number: u8, name: &[u8]) -> Option<Operation>
    ensures { result ≡ method_of (Some (O.Channel K.OutRaw number)) name.now }
{
    if name == b"on".as_slice() {
        Some(Operation::On(number))
    } else if name == b"off".as_slice() {
        Some(Operation::Off(number))
    } else if name == b"pulse_mu".as_slice() {
        Some(Operation::Pulse(number))
    } else if name == b"write".as_slice() {
        Some(Operation::Write(number))
    } else {
        None
    }
}

fn input_method(number: u8, name: &[u8]) -> Option<Operation>
    ensures { result ≡ method_of (Some (O.Channel K.Input number)) name.now }
{
    if name == b"gate_rising_mu".as_slice() {
        Some(Operation::GateRising(number))
    } else if name == b"gate_falling_mu".as_slice() {
        Some(Operation::GateFalling(number))
    } else if name == b"gate_both_mu".as_slice() {
        Some(Operation::GateBoth(number))
    } else if name == b"timestamp_mu".as_slice() {
        Some(Operation::Timestamp(number))
    } else if name == b"count".as_slice() {
        Some(Operation::Count(number))
    } else {
        None
    }
}

impl Operation {
    ghost use Rattle.std.specs.Prelude.{◌≡◌};
    ghost use Rattle.kern_calls.specs.Calls.{operation_result, operation_takes, is_live};

    /// The type of its value, if it has one.
    pub fn result(self) -> Option<DeclaredType>
        ensures { result ≡ operation_result self }
    {
        match self {
            Operation::GateRising(_) | Operation::GateFalling(_) | Operation::GateBoth(_) => {
                Some(DeclaredType::Int64)
            }
            Operation::Timestamp(_) | Operation::Counter | Operation::GetHandle => {
                Some(DeclaredType::Int64)
            }
            Operation::Count(_) => Some(DeclaredType::Int32),
            _ => None,
        }
    }

    /// What it takes.
    pub fn takes(self) -> &'static [Wanted]
        ensures { result.now ≡ operation_takes self }
    {
        match self {
            Operation::On(_) | Operation::Off(_) => &[],
            Operation::Counter | Operation::BreakRealtime | Operation::Reset => &[],
            Operation::Write(_) => &[Wanted::Int32, Wanted::Int32],
            Operation::Playback | Operation::GetHandle | Operation::Erase => &[Wanted::Text],
            _ => &[Wanted::Int64],
        }
    }

    /// Whether it asks the core for more than outputs or opens an input's gate.
    pub fn is_live(self) -> bool
        ensures { result ≡ is_live self }
    {
        !matches!(
            self,
            Operation::On(_) | Operation::Off(_) | Operation::Pulse(_) | Operation::Write(_)
        )
    }
}
