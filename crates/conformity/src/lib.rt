// Conformity: which identifiers a type of document must have, may have and must not have (source document 001, sections 8.1 and 8.7).

#![tactic(auto)]

mod table;

ghost use Rattle.std.specs.Prelude.{◌≡◌, ◌<◌, ◌&&◌, ℕ, length, get_or, map, position};
ghost use Rattle.std.specs.List.{find, range_with_len};
ghost use Rattle.refusal.specs.Among.{among};
ghost use Rattle.dictionary.specs.Dictionary.{rows_of as rows_named};
ghost use Rattle.dictionary.specs.Rows.{row_count};
ghost use Rattle.conformity.specs.Conformity.{column_of, mark_of, permitted, replaced, ConformityPromised};
ghost use Rattle.conformity.specs.inner.Code.{column_number, column_says, marks_of, table_of_column, mark_says, is_lacking, is_barred, there_in};

use dictionary::{Field, ROW_COUNT};
use refusal::{Reason, Refusal};

// The columns of the tables: the types covered.
#[derive(Clone, Copy, Debug, PartialEq, Eq)]
pub enum Column {
    Home00,
    Home01,
    Home02,
    SchoolB0,
    SchoolB1,
}

const COLUMN_COUNT: usize = 5;

// What a table says of a row.
#[derive(Clone, Copy, Debug, PartialEq, Eq)]
enum Mark {
    NotPermitted,
    Permitted,
    Mandatory,
}

// The rows that footnotes exchange.
const ROW_10: usize = 13;

const ROW_11: usize = 14;

const ROW_12: usize = 15;

const ROW_13: usize = 16;

const ROW_B0: usize = 89;

const ROW_B1: usize = 90;

// The column of a type, if it is covered.
#[tactic(auto, unfolding(crate::specs::Conformity::column_of))]
pub fn column_of(type0: u8, type1: u8) -> Option<Column>
    ensures { column_says result ≡ column_of type0 type1 }
{
    match (type0, type1) {
        (b'0', b'0') => Some(Column::Home00),
        (b'0', b'1') => Some(Column::Home01),
        (b'0', b'2') => Some(Column::Home02),
        (b'B', b'0') => Some(Column::SchoolB0),
        (b'B', b'1') => Some(Column::SchoolB1),
        _ => None,
    }
}

// The marks of every row, in every column.
#[tactic(auto, unfolding(crate::specs::inner::Code::marks_of, crate::specs::Conformity::mark_of, crate::specs::Tables::domicile, crate::specs::Tables::academic, crate::specs::Tables::row_of, dictionary::specs::Dictionary::find, dictionary::specs::Rows::rows))]
fn all_marks() -> &'static [[Mark; COLUMN_COUNT]; ROW_COUNT]
    ensures { map (map mark_says) result.now ≡ marks_of row_count 0 }
{
    &table::MARKS
}

impl Column {
    // Its place among the columns.
    pub fn number(self) -> usize
        ensures value { result ≡ column_number self }
        ensures fits { result < 5 }
    {
        self as usize
    }

    // The mark of a row. What is no row is not permitted.
    fn mark(self, row: usize) -> Mark
        ensures { mark_says result ≡ mark_of (table_of_column self) row }
    {
        match all_marks().get(row) {
            Some(marks) => marks[self.number()],
            None => Mark::NotPermitted,
        }
    }

    // Is all there that a footnote of the table exchanges the row for? Footnote * of section 8.1: 10 stands for 11, 12 and 13, and
    // these three together for 10. Footnote 6 of section 8.7, in the column B0: B0 and B1 stand for each other.
    #[tactic(auto, unfolding(crate::specs::Tables::row_of, dictionary::specs::Dictionary::find, dictionary::specs::Rows::rows, refusal::specs::Among::among))]
    fn is_replaced(self, there: &[bool; ROW_COUNT], row: usize) -> bool
        ensures { result ≡ replaced (there_in there.now) (table_of_column self).exchanges row }
    {
        match self {
            Column::Home00 | Column::Home01 | Column::Home02 => match row {
                ROW_10 => there[ROW_11] && there[ROW_12] && there[ROW_13],
                ROW_11 | ROW_12 | ROW_13 => there[ROW_10],
                _ => false,
            },
            Column::SchoolB0 => match row {
                ROW_B0 => there[ROW_B1],
                ROW_B1 => there[ROW_B0],
                _ => false,
            },
            Column::SchoolB1 => false,
        }
    }

    // Is the row mandatory, and neither it nor what it is exchanged for there?
    fn lacks(self, there: &[bool; ROW_COUNT], row: usize) -> bool
        requires { row < row_count }
        ensures { result ≡ is_lacking (table_of_column self) (there_in there.now) row }
    {
        matches!(self.mark(row), Mark::Mandatory) && !there[row] && !self.is_replaced(there, row)
    }

    // The least row that is lacking.
    fn first_lacking(self, there: &[bool; ROW_COUNT]) -> Option<usize>
        ensures { result ≡ find (is_lacking (table_of_column self) (there_in there.now)) (range_with_len 0 row_count) }
    {
        (0..ROW_COUNT).find(|&row| self.lacks(there, row))
    }

    // Is the row mandatory or permitted?
    fn permits(self, row: u16) -> bool
        ensures { result ≡ permitted (mark_of (table_of_column self) row) }
    {
        !matches!(self.mark(usize::from(row)), Mark::NotPermitted)
    }

    // The place of the first field that is not permitted.
    fn first_barred(self, fields: &[Field]) -> Option<usize>
        ensures { result ≡ position (is_barred (table_of_column self)) fields.now }
    {
        fields.iter().position(|field| !self.permits(field.row))
    }
}

// Which rows the fields name.
fn rows_of(fields: &[Field]) -> [bool; ROW_COUNT]
    ensures { (n : ℕ) → n < row_count → there_in result n ≡ among n (rows_named fields.now) }
{
    let mut there = [false; ROW_COUNT];
    for field in fields {
        let row = usize::from(field.row);
        if row < ROW_COUNT {
            there[row] = true;
        }
    }
    there
}

// The conformity of a message's fields to the table of its type. In this order: 28, 29 with the least row that is missing, 30 with the
// first field that is not permitted.
pub fn conforms(type0: u8, type1: u8, fields: &[Field]) -> Result<(), Refusal>
    ensures { ConformityPromised type0 type1 fields.now result }
{
    let column = column_of(type0, type1).ok_or(Reason::TypeNotCovered.at(0))?;
    let there = rows_of(fields);
    if let Some(row) = column.first_lacking(&there) {
        return Err(Reason::IdentifierMissing.at(row));
    }
    if let Some(place) = column.first_barred(fields) {
        return Err(Reason::IdentifierNotPermitted.at(place));
    }
    Ok(())
}
