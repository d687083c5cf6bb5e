// The program: reads a deck from standard input; writes its sheet, its refusal, or the number of its first malformed line to standard output.
// It only reads, calls and writes. `run` says that its text is the program's (crates/scope/specs/Program.antt) for all bytes of its reader, where that tells them.
// Standard input tells none: for it `run` says that its text is the program's for the bytes that stand in `kept`, or, where the input is longer than that, for those
// and some behind them. That it is read as any reader is, and that its text is what is written, no contract can say: `main` is to be read. Its exit status is 0
// whatever comes: where it can't read or write it says so on standard error, and it writes no other sheet.
#![tactic(auto)]

ghost use Rattle.std.specs.Prelude.{◌≤◌, length, take, IfSome, IfOk};
ghost use Rattle.demand.specs.Printed.{Answers};
ghost use Rattle.reading.specs.Told.{Told, ToldOf};

use answers::{CUTS, RECORDS, ROWS, TEXT};
use limits::SUMS;
use line::{BARRED, MOST_CELLS};
use reading::{KEPT, Unreadable};
use std::io;

// The text for the input: how many bytes it has.
fn run<R: io::Read>(
    input: &mut R,
    kept: &mut [u8],
    out: &mut [u8; TEXT],
) -> Result<usize, Unreadable>
    requires { length kept.old ≤ 65536 }
    ensures told { IfOk result (λ n. Told Answers kept.new (take n out.new)) }
    ensures least { IfOk result (λ n. 1 ≤ n) }
    ensures most { IfOk result (λ n. n ≤ length out.new) }
    ensures known { IfSome (R.remaining input.old) (λ xs. IfOk result (λ n. ToldOf Answers xs (take n out.new))) }
{
    let mut cells = [0.0; MOST_CELLS];
    let mut forbidden = [0usize; BARRED];
    let read = reading::read_all(input, kept, &mut cells, &mut forbidden)?;
    let mut sums = [0.0; SUMS];
    let mut rows = [0usize; ROWS];
    let mut gains = [0.0; RECORDS];
    let mut cuts = [0usize; CUTS];
    Ok(answers::answer(
        read, &cells, &forbidden, &mut sums, &mut rows, &mut gains, &mut cuts, out,
    ))
}

fn main(rt: HostRuntime) {
    let mut kept = [0u8; KEPT];
    let mut out = [0u8; TEXT];
    let Ok(n) = run(&mut rt.stdin(), &mut kept, &mut out) else {
        let _ = eprintln!(rt; "sheet: the input could not be read");
        return;
    };
    if rt.write_all(&out[..n]).is_err() {
        let _ = eprintln!(rt; "sheet: the output could not be written");
    }
}
