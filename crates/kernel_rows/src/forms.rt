// The instructions of the core's processor, read off its table.

/// What an instruction has.
#[derive(Clone, Copy)]
pub struct Form {
    pub number: u8,
    /// The bytes of each operand that it is written with.
    pub widths: &'static [usize],
    /// How many operands it takes, unless the table says it behind the others.
    pub takes: u8,
    /// How many it leaves.
    pub leaves: u8,
}

// Its name, its number, the bytes of each operand that it is written with, and how many operands it takes and leaves.
type Line = (&'static str, u8, &'static [usize], u8, u8);

const FORMS: &[Line] = &[
    ("Const", 0, &[8], 0, 1),
    ("Load", 1, &[2], 0, 1),
    ("Store", 2, &[2], 1, 0),
    ("LoadAt", 3, &[2, 2], 1, 1),
    ("StoreAt", 4, &[2, 2], 2, 0),
    ("Add", 5, &[], 2, 1),
    ("Sub", 6, &[], 2, 1),
    ("Mul", 7, &[], 2, 1),
    ("Div", 8, &[], 2, 1),
    ("Mod", 9, &[], 2, 1),
    ("And", 10, &[], 2, 1),
    ("Or", 11, &[], 2, 1),
    ("Xor", 12, &[], 2, 1),
    ("Shl", 13, &[1], 2, 1),
    ("Shr", 14, &[1], 2, 1),
    ("Neg", 15, &[], 1, 1),
    ("Inv", 16, &[], 1, 1),
    ("Wrap32", 17, &[], 1, 1),
    ("Eq", 18, &[], 2, 1),
    ("Ne", 19, &[], 2, 1),
    ("Lt", 20, &[], 2, 1),
    ("Le", 21, &[], 2, 1),
    ("Max", 22, &[], 2, 1),
    ("Pop", 23, &[], 1, 0),
    ("Dup", 24, &[], 1, 2),
    ("Jump", 25, &[4], 0, 0),
    ("JumpZero", 26, &[4], 1, 0),
    ("Turn", 27, &[], 0, 0),
    ("Call", 28, &[2], 0, 0),
    ("Return", 29, &[], 0, 0),
    ("Try", 30, &[4], 0, 0),
    ("EndTry", 31, &[], 0, 0),
    ("Raise", 32, &[], 1, 0),
    ("Now", 33, &[], 0, 1),
    ("At", 34, &[], 1, 0),
    ("Delay", 35, &[], 1, 0),
    ("Out", 36, &[1, 1], 1, 0),
    ("OutTo", 37, &[1], 2, 0),
    ("Counter", 38, &[], 0, 1),
    ("Reset", 39, &[], 0, 1),
    ("Wait", 40, &[], 1, 0),
    ("Edge", 41, &[1], 1, 1),
    ("Record", 42, &[2], 0, 0),
    ("Save", 43, &[], 0, 0),
    ("Play", 44, &[2], 0, 0),
    ("PlayHandle", 45, &[], 1, 0),
    ("Handle", 46, &[2], 0, 1),
    ("Erase", 47, &[2], 0, 0),
    ("DataInt", 48, &[2], 1, 0),
    ("DataList", 49, &[2, 2, 2], 0, 0),
    ("Fill", 50, &[2, 2], 1, 0),
];

/// The form of an instruction of this name.
pub fn form_of(name: &str) -> Option<Form> {
    for (word, number, widths, takes, leaves) in FORMS {
        if *word == name {
            return Some(Form {
                number: *number,
                widths: *widths,
                takes: *takes,
                leaves: *leaves,
            });
        }
    }
    None
}
