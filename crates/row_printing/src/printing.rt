// The text of rows.

ghost use Rattle.std.specs.Prelude.{◌≡◌, [], ◌∷◌, ◌++◌, map, IfOk, OnOk, Contains};
ghost use Rattle.std.specs.List.{flat_map};
ghost use Rattle.star_model.specs.Answers.{Assignment, value_of, values_of_columns};
ghost use Rattle.star_model.specs.WellFormed.{WellFormedQuery};
ghost use Rattle.listed_rows.specs.Environments.{key};
ghost use Rattle.row_steps.specs.LoadedTables.{data_of};
ghost use Rattle.row_printing.specs.RowLines.{value_text, with_commas, row_line, row_lines};
ghost use Rattle.row_printing.specs.Whole.{IsWhole};

use crate::rows::{Row, whole};
use crate::texts::push_value;
use row_steps::{Env, Tables, value};
use star_model::columns::Col;
use star_model::lists::List;
use star_model::query::Query;
use std::alloc::{AllocError, Global};

// Adds a comma and the value of the column, for each of the columns.
fn push_further(
    query: &Query,
    tables: &Tables,
    env: &Env,
    columns: &[Col],
    text: &mut Vec<u8>,
) -> Result<(), AllocError>
    ensures { OnOk result (text.new.items ≡ text.old.items
        ++ flat_map (λ other. 44 ∷ other) (map value_text
        (key query.now (data_of tables.now) columns.now env.now))) }
{
    for column in columns {
        text.push(b',')?;
        push_value(text, value(query, tables, env, *column))?;
    }
    Ok(())
}

// Adds the values of the columns, with commas between them.
fn push_values(
    query: &Query,
    tables: &Tables,
    env: &Env,
    columns: &[Col],
    text: &mut Vec<u8>,
) -> Result<(), AllocError>
    ensures { OnOk result (text.new.items ≡ text.old.items
        ++ with_commas (map value_text (key query.now (data_of tables.now) columns.now env.now))) }
{
    match columns {
        [] => Ok(()),
        [first, further @ ..] => {
            push_value(text, value(query, tables, env, *first))?;
            push_further(query, tables, env, further, text)
        }
    }
}

// Adds the line of the row.
fn push_row(query: &Query, tables: &Tables, row: &Row, text: &mut Vec<u8>) -> Result<(), AllocError>
    requires { WellFormedQuery query.now }
    ensures { OnOk result (text.new.items ≡ text.old.items
        ++ row_line (values_of_columns query.now (data_of tables.now) query.now.select row.now)) }
{
    let env = whole(row);
    push_values(query, tables, &env, query.select.as_slice(), text)?;
    text.push(b'\n')?;
    Ok(())
}

/// The lines of the rows, in their order: of each the values of the query's columns, an integer in
/// decimal, a text between quotes with each quote in it doubled.
pub fn print_rows(
    alloc: Global,
    query: &Query,
    tables: &Tables,
    rows: &List<Row>,
) -> Result<Vec<u8>, AllocError>
    requires query { WellFormedQuery query.now }
    requires rows { (a : Assignment) → Contains rows.now a
        → IsWhole query.now (data_of tables.now) a }
    ensures { IfOk result (λ text. text.items
        ≡ row_lines (map (values_of_columns query.now (data_of tables.now) query.now.select)
        rows.now)) }
{
    let mut text = Vec::new(alloc);
    for row in rows.as_slice() {
        push_row(query, tables, row, &mut text)?;
    }
    Ok(text)
}
