// Tables, from the files that a line of input names.
use crate::marks::{expanded, with_parts};
use std::alloc::{AllocError, Global};
use std::rt::Files;
use std::{fs, io};

/// The name and the text of a file that is the text of each row.
pub const OWN: &str = "…";

/// A row of a table.
#[derive(Debug, Drop)]
pub struct Row {
    /// The row as it is written.
    pub line: String,
    /// What the row asks about.
    pub text: String,
    /// The answer that is wanted.
    pub wanted: String,
}

/// What a line of input asks.
#[derive(Debug, Drop)]
pub struct Table {
    /// What is asked of each text.
    pub kind: String,
    /// The texts of the further files.
    pub files: Vec<String>,
    pub rows: Vec<Row>,
}

impl Table {
    /// The further file at a place, for the text of a row; an empty text where there is none.
    pub fn file<'a>(&'a self, place: usize, text: &'a str) -> &'a str {
        match self.files.as_slice().get(place) {
            Some(file) if file.as_str() == OWN => text,
            Some(file) => file.as_str(),
            None => "",
        }
    }
}

// What a text or an answer is in its frame.
fn framed(alloc: Global, frame: &str, text: &str, parts: &str) -> Result<String, AllocError> {
    let whole = frame.replace(alloc, OWN, text)?;
    let whole = with_parts(alloc, whole.as_str(), parts)?;
    expanded(alloc, whole.as_str())
}

// The row of a line. A line of one text is its own answer.
fn row_of(alloc: Global, frame: &str, line: &str, parts: &str) -> Result<Row, AllocError> {
    let (of_text, of_answer) = frame.split_once(" => ").unwrap_or((frame, OWN));
    let (text, answer) = line.split_once(" => ").unwrap_or((line, line));
    Ok(Row {
        line: String::from_str(alloc, line)?,
        text: framed(alloc, of_text, text, parts)?,
        wanted: framed(alloc, of_answer, answer, parts)?,
    })
}

// The rows of the lines of a file.
fn rows_of(alloc: Global, frame: &str, file: &str, parts: &str) -> Result<Vec<Row>, AllocError> {
    let mut rows = Vec::new(alloc);
    for line in file.lines() {
        rows.push(row_of(alloc, frame, line, parts)?)?;
    }
    Ok(rows)
}

// The text of a further file.
fn further<R: Files + AllocGlobal>(rt: &R, name: &str) -> io::Result<String> {
    if name == OWN {
        return Ok(String::from_str(rt.alloc(), OWN)?);
    }
    fs::read_to_string(rt, name)
}

/// The table that a line of input asks about. An error is one of reading a file.
pub fn read_table<R: Files + AllocGlobal>(rt: &R, line: &str) -> io::Result<Table> {
    let alloc = rt.alloc();
    let (names, frame) = line.split_once(" | ").unwrap_or((line, OWN));
    let mut names = names.split(' ');
    let kind = String::from_str(alloc, names.next().unwrap_or(""))?;
    let file = fs::read_to_string(rt, names.next().unwrap_or(""))?;
    let mut files = Vec::new(alloc);
    for name in names {
        files.push(further(rt, name)?)?;
    }
    let parts = fs::read_to_string(rt, "parts").unwrap_or(String::new(alloc));
    let rows = rows_of(alloc, frame, file.as_str(), parts.as_str())?;
    Ok(Table { kind, files, rows })
}
