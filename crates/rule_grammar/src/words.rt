// What words stand for in rules.

/// What a word stands for at the front of a value of the rule language. `Other` stands for a name,
/// or begins no value.
#[derive(Clone, Copy, Debug)]
pub enum ValueHead {
    Constant(ConstantHead),
    Unary(UnaryHead),
    Binary(BinaryHead),
    Indexable,
    Other,
}

/// A word that is a value.
#[derive(Clone, Copy, Debug)]
pub enum ConstantHead {
    All,
    NoPreds,
    NoCols,
    OrderBy,
    QuerySite,
}

/// A word before one value in brackets.
#[derive(Clone, Copy, Debug)]
pub enum UnaryHead {
    Tables,
    Inside,
    Crossing,
    Equalities,
    Home,
}

/// A word before two values in brackets.
#[derive(Clone, Copy, Debug)]
pub enum BinaryHead {
    Between,
    Columns,
    Keys,
    Union,
    Minus,
    Meet,
}

/// What a word stands for at the front of a requirement in square brackets. `Other` begins none.
#[derive(Clone, Copy, Debug)]
pub enum RequirementHead {
    Valued(ValuedHead),
    Temp,
    Other,
}

/// A word before the value of a requirement.
#[derive(Clone, Copy, Debug)]
pub enum ValuedHead {
    Order,
    Site,
    Path,
}

/// What a word stands for at the front of a range. `Other` begins none.
#[derive(Clone, Copy, Debug)]
pub enum RangeHead {
    Indexes,
    Sites,
    Members,
    Each,
    Other,
}

/// What a word stands for at the front of a condition. `Other` begins none.
#[derive(Clone, Copy, Debug)]
pub enum ConditionHead {
    Unary(UnaryTest),
    Binary(BinaryTest),
    Not,
    Junction(Junction),
    Other,
}

/// A word before one tested value in brackets.
#[derive(Clone, Copy, Debug)]
pub enum UnaryTest {
    Empty,
    Single,
}

/// A word before two tested values in brackets.
#[derive(Clone, Copy, Debug)]
pub enum BinaryTest {
    Same,
    Within,
    Begins,
}

/// A word before two conditions in brackets.
#[derive(Clone, Copy, Debug)]
pub enum Junction {
    And,
    Or,
}
