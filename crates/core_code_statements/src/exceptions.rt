// The codes of exceptions.

ghost use Rattle.std.specs.Prelude.{◌≡◌};
ghost use Rattle.code_forms.specs.StatementCode.{code_of_name};

/// The code of an exception's name; no exception has code 0.
pub fn exception_code(name: &[u8]) -> i64
    ensures { result ≡ code_of_name name.now }
{
    if name == b"RTIOUnderflow".as_slice() {
        1
    } else if name == b"RTIOOverflow".as_slice() {
        2
    } else if name == b"DMAError".as_slice() {
        3
    } else if name == b"ZeroDivisionError".as_slice() {
        4
    } else if name == b"IndexError".as_slice() {
        5
    } else if name == b"StackOverflow".as_slice() {
        6
    } else {
        0
    }
}
