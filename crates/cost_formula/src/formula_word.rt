// What lexemes stand for in formulas.

use star_model::formula::{Test, Var};

/// What a lexeme stands for in a formula. `Other` stands in none.
#[derive(Clone, Copy, Debug)]
pub enum FormulaWord {
    Number(u64),
    Variable(Var),
    If,
    Then,
    Else,
    Min,
    Max,
    Test(Test),
    Plus,
    Minus,
    Times,
    Over,
    Open,
    Close,
    Comma,
    Other,
}

/// An operator between two operands.
#[derive(Clone, Copy, Debug)]
pub enum Sign {
    Plus,
    Minus,
    Times,
    Over,
}
