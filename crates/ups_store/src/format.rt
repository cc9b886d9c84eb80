//! The formats of a store: its tables, by the SQL texts under which they are listed in `sqlite_schema`. The requests are
//! the first table, the runs the second. From format 3 on there is a third table, the draft, with the columns of the
//! requests: the requests that a compaction writes stand there until the two tables are exchanged, which then are listed
//! under each other's names.
//!
//! The columns stand in the texts, one in a line, with their kinds; `cells_of` of `request` and of `runs` gives their cells
//! in the same order. A new column comes last, and its NULL is not written. So a row of an earlier format is a row of the
//! table as it is now, and a store of an earlier format becomes one of this version with no row rewritten. A format
//! is known by its texts, and each has others than those before it. Its number is the user version, which two formats
//! share; format 1 has 0, and so has a store that was just made.

ghost use Rattle.std.specs.Prelude.{◌≡◌, ℕ, pos, codes, length};
ghost use Rattle.sqlite_value.specs.Value.{owned};
ghost use Rattle.sqlite_store.specs.Catalog.{wanted_of};
ghost use Rattle.sqlite_trees.specs.Objects.{object_row, listing};
ghost use Rattle.sqlite_trees.specs.declared.store.Shape.TheVariants.{Table};
ghost use Rattle.ups_store.specs.Format.{table_of, request_table, run_table, run_sql, tables_of, first_name, last_name, is_text_cell, third_in, format_in, names_draft};
ghost use Rattle.sqlite_trees.specs.Tree.{has_rowid};
ghost use Rattle.ups_store.specs.Rows.{table_by, table_listed};

use sqlite_trees::schema::Object;
use sqlite_trees::store::Shape;
use sqlite_value::order::compare;
use sqlite_value::row::Row;
use sqlite_value::value::ValueRef;

/// The number that a file of this version has as its user version.
pub(crate) const VERSION: u32 = 3;

pub(crate) const REQUEST: &str = "request";

pub(crate) const RUN: &str = "run";

pub(crate) const DRAFT: &str = "draft";

/// The SQL text of a table: its name, and each column behind the number with its kind.
macro_rules! table_sql {
    ($table:literal, $($column:literal $kind:literal),*) => {
        concat!("CREATE TABLE ", $table, " (number INTEGER PRIMARY KEY", $(", ", $column, " ", $kind,)* ") STRICT")
    };
}

/// The SQL text of the table of runs: these columns come behind those of format 1.
macro_rules! run_table_sql {
    ($($column:literal $kind:literal),*) => {
        table_sql!(
            "run",
            "moment" "INTEGER NOT NULL",
            "version" "TEXT NOT NULL",
            "settings" "TEXT NOT NULL",
            "requests" "INTEGER NOT NULL"
            $(, $column $kind)*
        )
    };
}

/// The SQL text of a table of requests.
macro_rules! request_table_sql {
    ($table:literal) => {
        table_sql!(
            $table,
            "run" "INTEGER NOT NULL",
            "caller" "INTEGER NOT NULL",
            "moment" "INTEGER NOT NULL",
            "title" "TEXT NOT NULL",
            "operation" "TEXT NOT NULL",
            "instance" "TEXT",
            "transaction_uid" "TEXT",
            "state" "TEXT",
            "receiver" "TEXT",
            "deletion_lock" "INTEGER",
            "event" "INTEGER",
            "utc_offset" "INTEGER",
            "attributes" "BLOB"
        )
    };
}

pub(crate) const REQUEST_SQL: &str = request_table_sql!("request");

const DRAFT_SQL: &str = request_table_sql!("draft");

const FIRST_RUN_SQL: &str = run_table_sql!();

const SECOND_RUN_SQL: &str = run_table_sql!("terms" "TEXT");

/// The format of a store.
#[derive(Clone, Copy, Debug, PartialEq, Eq)]
pub(crate) enum Format {
    /// Runs without terms.
    First,
    /// Runs with terms.
    Second,
    /// A draft, which is tree 2.
    Third,
    /// A draft, which is tree 0, while tree 2 is the table of requests.
    Exchanged,
}

/// Each format once.
pub(crate) const FORMATS: [Format; 4] = [
    Format::First,
    Format::Second,
    Format::Third,
    Format::Exchanged,
];

/// The format of this version, as a new store has it.
pub(crate) const CURRENT: Format = Format::Third;

impl Format {
    /// Returns the SQL text of the table of runs.
    pub(crate) fn run_sql(self) -> &'static str
        ensures { result.now ≡ run_sql self }
    {
        match self {
            Format::First => FIRST_RUN_SQL,
            Format::Second | Format::Third | Format::Exchanged => SECOND_RUN_SQL,
        }
    }
}

/// Returns the table with this name and this SQL text.
fn table(name: &'static str, sql: &'static str) -> Object<'static>
    ensures wanted { wanted_of result ≡ table_of name.now sql.now }
    ensures listed { (tree : ℕ) → object_row tree result ≡ listing tree (table_of name.now sql.now).row Table 0 }
{
    Object {
        shape: Shape::Table,
        kind: "table",
        name,
        table: name,
        reals: 0,
        sql: Some(sql),
    }
}

/// Returns the table of requests, which is the same in all formats.
#[tactic(auto, unfolding(crate::specs::Format::sql_of))]
pub(crate) fn request_table() -> Object<'static>
    ensures wanted { wanted_of result ≡ request_table (codes "request") }
    ensures listed { (tree : ℕ) → object_row tree result ≡ listing tree (request_table (codes "request")).row Table 0 }
{
    table(REQUEST, REQUEST_SQL)
}

/// Returns the table of the draft, which has the columns of the table of requests.
#[tactic(auto, unfolding(crate::specs::Format::sql_of))]
pub(crate) fn draft_table() -> Object<'static>
    ensures wanted { wanted_of result ≡ request_table (codes "draft") }
    ensures listed { (tree : ℕ) → object_row tree result ≡ listing tree (request_table (codes "draft")).row Table 0 }
{
    table(DRAFT, DRAFT_SQL)
}

/// Returns the table of runs.
pub(crate) fn run_table(format: Format) -> Object<'static>
    ensures wanted { wanted_of result ≡ run_table format }
    ensures listed { (tree : ℕ) → object_row tree result ≡ listing tree (run_table format).row Table 0 }
{
    table(RUN, format.run_sql())
}

/// Returns whether a cell is this text.
pub(crate) fn is_text_cell(cell: ValueRef<'_>, text: &str) -> bool
    ensures { result ≡ is_text_cell (owned cell.entry) text.now }
{
    match cell {
        ValueRef::Text(bytes) => bytes == text.as_bytes(),
        _ => false,
    }
}

/// Returns the first table of a store of this format.
pub(crate) fn first_table(format: Format) -> Object<'static>
    ensures { wanted_of result ≡ request_table (first_name format) }
{
    match format {
        Format::First | Format::Second | Format::Third => request_table(),
        Format::Exchanged => draft_table(),
    }
}

/// Returns the third table of a store of this format, if it has one.
pub(crate) fn last_table(format: Format) -> Object<'static>
    ensures { wanted_of result ≡ request_table (last_name format) }
{
    match format {
        Format::First | Format::Second | Format::Third => draft_table(),
        Format::Exchanged => request_table(),
    }
}

/// Returns the number of tables of a store of this format.
pub(crate) fn table_count(format: Format) -> usize
    ensures { result ≡ length (tables_of format) }
{
    match format {
        Format::First | Format::Second => 2,
        Format::Third | Format::Exchanged => 3,
    }
}

/// Returns the format of a store of three tables by the row of the first in `sqlite_schema`.
#[tactic(auto, unfolding(crate::specs::Format::sql_of))]
fn third_in(first: &Row) -> Format
    ensures { result ≡ third_in first.now }
{
    if is_text_cell(first.get(5), DRAFT_SQL) {
        return Format::Exchanged;
    }
    Format::Third
}

/// Returns the format of a store by the rows of its `sqlite_schema`. Of other rows it says nothing.
pub(crate) fn format_in(rows: &[Row]) -> Format
    ensures { result ≡ format_in rows.now }
{
    match rows {
        [_, run, ..] if is_text_cell(run.get(5), Format::First.run_sql()) => Format::First,
        [first, _, _, ..] => third_in(first),
        _ => Format::Second,
    }
}

/// Returns whether this row of a list of tables is that of tree 0.
fn is_first(row: &Row) -> bool
    ensures { result ≡ has_rowid (pos 1) row.now }
{
    compare(row.get(0), ValueRef::Int(1)).is_eq()
}

/// Returns the number of the tree of requests, by the row of tree 0 in a list of tables.
fn table_by(first: &Row) -> u32
    ensures { result ≡ table_by first.now }
{
    if is_text_cell(first.get(2), DRAFT) {
        return 2;
    }
    0
}

/// Returns the number of the tree of requests, by a list of tables.
pub(crate) fn table_in(rows: &[Row]) -> u32
    ensures { result ≡ table_listed rows.now }
{
    for at in 0..rows.len() {
        let row = &rows[at];
        if is_first(row) {
            return table_by(row);
        }
    }
    0
}

/// Returns whether a table of a list has the name of the draft.
pub(crate) fn names_draft(rows: &[Row]) -> bool
    ensures { result ≡ names_draft rows.now }
{
    rows.iter().any(|row| is_text_cell(row.get(2), DRAFT))
}
