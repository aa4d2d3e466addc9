// Rows one after the other, each by the state before it.
ghost use Rattle.std.specs.Prelude.{◌≡◌, ◌<◌, length};
ghost use Rattle.law.specs.Rows.{capacity};
ghost use Rattle.order.specs.Automaton.{start};
ghost use Rattle.write.specs.WholeRows.{whole_rows, row_in};
ghost use Rattle.write.specs.Writable.{row_step, carries};

use law::{Context, Rules};
use order::{Reason, Stage, State};
use rows::{STRIDE, WIDTH};

// A row, counted from 0.
pub(crate) fn row_at(rows: &[i64], i: usize) -> [i64; WIDTH]
    requires { i < capacity (length rows.now) }
    ensures { result ≡ row_in rows.now i }
{
    let mut row = [0; WIDTH];
    let at = i * STRIDE;
    row.copy_from_slice(&rows[at..at + WIDTH]);
    row
}

// What a row does in a state.
fn step(v: Rules, bytes: &[u8], st: State, row: [i64; WIDTH]) -> Result<State, Reason>
    ensures { result ≡ row_step v bytes.now st row }
{
    let c = Context {
        rules: v,
        file: order_states::type_at(st),
    };
    if !write_columns::row_fits(c, bytes, row) {
        return Err(Reason::Unfit);
    }
    let kind = number::magnitude(row[rows::KIND]);
    order_states::stepped(v, st, kind, rows::file_type_in(row), rows::point_in(row))
}

// Whether rows are in a file's order, with values that fit, up to where it may end.
pub(crate) fn carry(v: Rules, rows: &[i64], bytes: &[u8]) -> bool
    ensures { result ≡ carries v bytes.now start (whole_rows rows.now) }
{
    let n = rows::capacity(rows.len());
    let mut st = State::Between(Stage::Nothing);
    for i in 0..n {
        match step(v, bytes, st, row_at(rows, i)) {
            Ok(next) => st = next,
            Err(_) => return false,
        }
    }
    order_states::accepting(st)
}
