// What the code of a function rests on.

ghost use Rattle.std.specs.Prelude.{◌≡◌, ◌<◌, ◌^◌, length};
ghost use Rattle.code_forms.specs.Setting.{slots_of_names};

use crate::slotted::SlottedNames;
use crate::texts::Texts;
use kern_calls::ValueType;
use kern_names::Functions;
use kern_syntax::DeclaredType;

/// What the code of a function rests on. Contracts see it by `setting_of`.
#[derive(Clone, Copy)]
pub struct Setting<'a> {
    /// The functions of the program.
    pub functions: Functions<'a>,
    /// The names of the function with their types and slots.
    pub names: &'a SlottedNames,
    /// The names of recordings and datasets of the program.
    pub texts: &'a Texts,
    /// Whether the function has a value.
    pub value: bool,
    ghost few_functions: { length functions.functions.now < 2 ^ 16 },
    ghost few_slots: { slots_of_names names.now < 2 ^ 16 },
    ghost few_texts: { length texts.now < 2 ^ 16 },
}

impl<'a> Setting<'a> {
    ghost use Rattle.std.specs.Prelude.{◌≡◌, option_and_then};
    ghost use Rattle.kern_calls.specs.Calls.{look_up};
    ghost use Rattle.kern_calls.specs.Types.{function_named, type_of};
    ghost use Rattle.kern_syntax.specs.Tree.{variable};
    ghost use Rattle.code_forms.specs.Setting.{slot_of, length_of, index_of_text, index_of_function, has_value};
    ghost use Rattle.code_forms.specs.Setting.{slots_of_names};
    ghost use Rattle.kern_names.specs.ScopeOf.{program_of};
    ghost use Rattle.core_code_names.specs.SettingOf.{setting_of};

    /// A function of this program, with these names and texts, that has a value or not.
    pub fn new(
        functions: Functions<'a>,
        names: &'a SlottedNames,
        texts: &'a Texts,
        value: bool,
    ) -> Setting<'a>
        requires few_functions { length functions.functions.now < 2 ^ 16 }
        requires few_slots { slots_of_names names.now < 2 ^ 16 }
        requires few_texts { length texts.now < 2 ^ 16 }
        ensures { setting_of result ≡ record {
          scope = record { program = program_of functions.entry; names = names.now };
          texts = texts.now;
          value = value;
        } }
    {
        Setting {
            functions,
            names,
            texts,
            value,
        }
    }

    /// The type of a name of the function, if it is one.
    pub fn name_kind(&self, name: &[u8]) -> Option<ValueType>
        ensures { result ≡ look_up (setting_of self.now).scope.names name.now }
    {
        self.names.kind(name)
    }

    /// The type of a name of the function; int64 of another.
    pub fn type_of_name(&self, name: &[u8]) -> ValueType
        ensures { result ≡ type_of (setting_of self.now).scope (variable name.now) }
    {
        match self.names.kind(name) {
            Some(kind) => kind,
            None => ValueType::Int64,
        }
    }

    /// The first slot of a name of the function; of another name, the first slot behind all of them.
    pub fn slot(&self, name: &[u8]) -> u16
        ensures { result ≡ slot_of (setting_of self.now) name.now }
    {
        self.names.slot(name)
    }

    /// The length of an array of the function; 0 of another name.
    pub fn length(&self, name: &[u8]) -> u16
        ensures { result ≡ length_of (setting_of self.now) name.now }
    {
        match self.names.kind(name) {
            Some(ValueType::Array(length)) => length,
            _ => 0,
        }
    }

    /// The index of a text among the names of the code; 0 of another text.
    pub fn text_index(&self, text: &[u8]) -> u16
        ensures { result ≡ index_of_text (setting_of self.now) text.now }
    {
        match self.texts.place(text) {
            Some(place) => place as u16,
            None => 0,
        }
    }

    /// The index of a function of the program; 0 of another name.
    pub fn function_index(&self, name: &[u8]) -> u16
        ensures { result ≡ index_of_function (setting_of self.now) name.now }
    {
        match self.functions.place(name) {
            Some(place) => place as u16,
            None => 0,
        }
    }

    /// The type of the value of a function of the program, if it has one.
    pub fn function_result(&self, name: &[u8]) -> Option<DeclaredType>
        ensures { result ≡ option_and_then (λ f. f.result) (function_named (setting_of self.now).scope.program name.now) }
    {
        self.functions.result(name)
    }

    /// Whether a function of the program has a value.
    pub fn has_value(&self, name: &[u8]) -> bool
        ensures { result ≡ has_value (setting_of self.now) name.now }
    {
        self.function_result(name).is_some()
    }
}
