// The forms of a line, for any table of them: the type that the definitions speak of. What a line asks, and that it is read exactly when it is of a row's form, is in specs/; this crate has no code.
#![tactic(auto)]

// A row of a table: the length of its line, and the digits of each number, 0 for none.
#[derive(Clone, Copy, Debug, PartialEq, Eq)]
pub struct Row {
    pub total: usize,
    pub a: usize,
    pub b: usize,
    pub c: usize,
}
