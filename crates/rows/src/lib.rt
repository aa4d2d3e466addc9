// A row: a record as ten numbers, its kind and then the fields of its line; in a lent slice its line's number stands behind them. Its columns and kinds by name, and what is read off it.
#![tactic(auto)]

ghost use Rattle.std.specs.Prelude.{◌≡◌};
ghost use Rattle.basics.specs.Integers.{eq_z};
ghost use Rattle.law.specs.Records.{is_library};
ghost use Rattle.law.specs.Rows.{capacity};
ghost use Rattle.rows.specs.Columns.{column_at, kind_column, length_in, included_in, point_in, type_in_row};
ghost use Rattle.rows.specs.RowKinds.{leads_component, component_kind};

use law::FileType;
use number::{Angle, Length};

// How many numbers a record has: its kind and nine columns.
pub const WIDTH: usize = 10;

// How many numbers of a slice a row takes: those of its record, and its line's.
pub const STRIDE: usize = 11;

// Kinds of rows: the first line of a placement, the leading lines of components; and the last there is. Numbers, since the rows that C
// lends hold them.
pub const PART: i64 = 131;

pub const ELECTRICAL: i64 = 141;

pub const MECHANICAL: i64 = 151;

pub const LAST_KIND: u64 = 159;

// The first column is the kind.
pub const KIND: usize = 0;

// Of a title line: the file's type.
pub const FILE_TYPE: usize = 1;

// Of a point line.
pub const LABEL: usize = 1;

pub const X: usize = 2;

pub const Y: usize = 3;

pub const ANGLE: usize = 4;

// Of the leading line of a component and of the first line of a placement, whose package stands where a component has its
// geometry: texts, each by its start in the file and its length.
pub const GEOMETRY: usize = 1;

pub const GEOMETRY_LEN: usize = 2;

pub const PART_NUMBER: usize = 3;

pub const PART_NUMBER_LEN: usize = 4;

// Of the first line of a placement.
pub const REFERENCE: usize = 5;

pub const REFERENCE_LEN: usize = 6;

// A point line: its loop's label, its place, its included angle.
#[derive(Clone, Copy)]
pub struct Point {
    pub label: i64,
    pub x: Length,
    pub y: Length,
    pub angle: Angle,
}

// How many rows a slice of n numbers holds.
pub fn capacity(n: usize) -> usize
    ensures { result ≡ capacity n }
{
    n / STRIDE
}

// A column of a row, 0 past its last.
pub fn column_at(row: &[i64], i: usize) -> i64
    ensures { result ≡ column_at row.now i }
{
    row.get(i).copied().unwrap_or(0)
}

// Whether a row is of this kind. By `basics::same_integers`, whose statement is on what the programs do.
#[tactic(auto, using(basics::proofs::Integers::back_same))]
pub fn has_kind(row: [i64; WIDTH], kind: i64) -> bool
    ensures { result ≡ eq_z (kind_column row) kind }
{
    basics::same_integers(row[KIND], kind)
}

// The kind of an electrical or a mechanical component.
pub fn component_kind(mechanical: bool) -> i64
    ensures { result ≡ component_kind mechanical }
{
    if mechanical { MECHANICAL } else { ELECTRICAL }
}

// Whether a row leads ELECTRICAL or MECHANICAL, and so names a component.
pub fn leads_component(row: [i64; WIDTH]) -> bool
    ensures { result ≡ leads_component row }
{
    has_kind(row, ELECTRICAL) | has_kind(row, MECHANICAL)
}

// The length in a column; 0 where the column, of another line, holds none.
fn length_in(z: i64) -> Length
    ensures { result ≡ length_in z }
{
    Length::new(z).unwrap_or(Length::ZERO)
}

// The included angle in a column, likewise.
fn included_in(z: i64) -> Angle
    ensures { result ≡ included_in z }
{
    Angle::included(z).unwrap_or(Angle::ZERO)
}

// The point in the row of a point line.
pub fn point_in(row: [i64; WIDTH]) -> Point
    ensures { result ≡ point_in row }
{
    Point {
        label: row[LABEL],
        x: length_in(row[X]),
        y: length_in(row[Y]),
        angle: included_in(row[ANGLE]),
    }
}

// The file's type in the row of a title line.
#[tactic(auto, using(crate::proofs::ColumnLaws::row_board, crate::proofs::ColumnLaws::row_panel, crate::proofs::ColumnLaws::row_library))]
pub fn file_type_in(row: [i64; WIDTH]) -> FileType
    ensures { result ≡ type_in_row row }
{
    match row[FILE_TYPE] {
        0 => FileType::Board,
        1 => FileType::Panel,
        _ => FileType::Library,
    }
}

// Whether a file is a library.
pub fn is_library(t: FileType) -> bool
    ensures { result ≡ is_library t }
{
    matches!(t, FileType::Library)
}
