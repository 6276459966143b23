// What a statement of a rule file is for.

use star_model::rules::{FormulaDef, SelectDef, StarDef};

/// What a statement of a rule file is for: it says version 2, or it defines this.
#[derive(Drop)]
pub enum Definition {
    Version,
    Select(SelectDef),
    Formula(FormulaDef),
    Star(StarDef),
}
