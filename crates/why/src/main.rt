// The program `why ROW`: reads a deck from standard input; writes why the row is not on its sheet, or that it is, the refusal, or the number of the first malformed
// line to standard output.
// It only reads, calls and writes. `run` says that an argument's bytes ask no row, or that its text is the program's (crates/scope/specs/WhyText.antt) for the row
// that they ask and all bytes of its reader, where that tells them. Standard input tells none: for it `run` says that its text is the program's for the bytes that
// stand in `kept`, or, where the input is longer than that, for those and some behind them. That the argument's bytes are those of the one argument, that the input
// is read as any reader is, and that the text is what is written, no contract can say: `main` is to be read, and `one_argument`. Its exit status is 0 whatever comes:
// where it is asked no row, or can't read or write, it says so on standard error, and it writes no other line.
#![tactic(auto)]

ghost use Rattle.std.specs.Prelude.{◌≡◌, [], ◌∷◌, ◌≤◌, length, take, IfSome, IfOk, option_map};
ghost use Rattle.scope.specs.WhyText.{row_asked};
ghost use Rattle.demand.specs.Printed.{AnswersWhy};
ghost use Rattle.token.specs.Options.{option_of};
ghost use Rattle.reading.specs.Told.{Told, ToldOf};
ghost use Rattle.why.specs.Asked.{RowTold, RowToldOf};

use limits::SUMS;
use line::{BARRED, MOST_CELLS};
use reading::{KEPT, Unreadable};
use rows::Position;
use std::env::{Env, FillError};
use std::io;
use why_answers::TEXT;

// So many digits has a number at most: a longer argument is none.
const MOST_DIGITS: usize = 10;

// The row that one argument asks.
fn row_of(argument: &[u8]) -> Option<Position>
    ensures { option_of (option_map (λ row. row.0) result) ≡ row_asked (argument.now ∷ []) }
{
    let row = token::number_of(argument)?;
    Some(Position(row))
}

// The text for a row and the input: how many bytes it has.
fn answer_row<R: io::Read>(
    input: &mut R,
    row: Position,
    kept: &mut [u8],
    out: &mut [u8; TEXT],
) -> Result<usize, Unreadable>
    requires { length kept.old ≤ 65536 }
    ensures told { IfOk result (λ n. Told (AnswersWhy row.0) kept.new (take n out.new)) }
    ensures least { IfOk result (λ n. 1 ≤ n) }
    ensures most { IfOk result (λ n. n ≤ length out.new) }
    ensures known { IfSome (R.remaining input.old) (λ xs. IfOk result (λ n. ToldOf (AnswersWhy row.0) xs (take n out.new))) }
{
    let mut cells = [0.0; MOST_CELLS];
    let mut forbidden = [0usize; BARRED];
    let read = reading::read_all(input, kept, &mut cells, &mut forbidden)?;
    let mut sums = [0.0; SUMS];
    Ok(why_answers::answer(read, row, &cells, &forbidden, &mut sums, out))
}

// The text for the row that the argument asks. Where it asks none, nothing is read.
fn run<R: io::Read>(
    argument: &[u8],
    input: &mut R,
    kept: &mut [u8],
    out: &mut [u8; TEXT],
) -> Option<Result<usize, Unreadable>>
    requires { length kept.old ≤ 65536 }
    ensures told { RowTold argument.now kept.new out.new result }
    ensures known { IfSome (R.remaining input.old) (λ xs. RowToldOf argument.now xs out.new result) }
{
    let row = row_of(argument)?;
    Some(answer_row(input, row, kept, out))
}

// The one argument behind the program's name: empty where there is not one, or where it is longer than a number.
fn one_argument<'a>(rt: &HostRuntime, argument: &'a mut [u8; MOST_DIGITS]) -> &'a [u8]
    ensures { length result.now ≤ length argument.old }
{
    let len = match rt.arg(2, &mut [0u8; 1]) {
        Err(FillError::NotPresent) => rt.arg(1, argument).unwrap_or(0),
        _ => 0,
    };
    &argument[..len]
}

fn main(rt: HostRuntime) {
    let mut argument = [0u8; MOST_DIGITS];
    let asked = one_argument(&rt, &mut argument);
    let mut kept = [0u8; KEPT];
    let mut out = [0u8; TEXT];
    let Some(answered) = run(asked, &mut rt.stdin(), &mut kept, &mut out) else {
        let _ = eprintln!(rt; "why: one argument is asked: a row's number, 1 to 10 digits");
        return;
    };
    let Ok(n) = answered else {
        let _ = eprintln!(rt; "why: the input could not be read");
        return;
    };
    if rt.write_all(&out[..n]).is_err() {
        let _ = eprintln!(rt; "why: the output could not be written");
    }
}
