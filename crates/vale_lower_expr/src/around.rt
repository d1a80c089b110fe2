// What a body names.
use crate::functions::Functions;
use crate::texts::Texts;

/// The texts of the code, the functions of the program, and whether the function that is lowered gives a value.
#[derive(Drop)]
pub struct Around<'p> {
    pub texts: &'p Texts<'p>,
    pub functions: &'p Functions<'p>,
    pub gives: bool,
}
