// One row's order: all rows by distance, equal ones by lower index. A stable merge sort; it works in as much room again as it fills.
// Inside the library. After classifier/knn.rs, which leaves the order of equal ones open.
#![tactic(auto)]

ghost use Rattle.std.specs.Prelude.{◌≡◌, cond, ◌+◌, ◌<◌, ◌≤◌, length, get_or, drop};
ghost use Rattle.scope.specs.Neighbours.{is_nearer, insert, ordered};
ghost use Rattle.order.specs.Rows.{merged, Below, Numeric, Halves};

// So few rows are sorted faster by insertion than by merging (measured).
const FEW: usize = 8;

// Whether row a is nearer than row b.
fn is_nearer(ds: &[f64], a: u32, b: u32) -> bool
    requires { (length ds.now ≤ 1024) × (a < length ds.now) × (b < length ds.now) }
    ensures { result ≡ is_nearer ds.now a b }
{
    ds[a as usize] < ds[b as usize]
}

// Puts a row into the order of those that stand from place 1 on: in front of the first that is no nearer. Rows move as they are
// passed: with a return in place of the break it was slower, by 1.5% of all an ordering's instructions.
// One pass that compares and moves; `position` and `rotate_left` would be two.
fn insert_row(ds: &[f64], row: u32, out: &mut [u32])
    requires { (length ds.now ≤ 1024) × (row < length ds.now) × (1 ≤ length out.old) × (length out.old ≤ 1024) × Below (length ds.now) (drop 1 out.old) }
    ensures { out.new ≡ insert ds.now row (drop 1 out.old) }
{
    let mut hole = 0;
    for next in 1..out.len() {
        if !is_nearer(ds, out[next], row) {
            break;
        }
        out[hole] = out[next];
        hole = next;
    }
    out[hole] = row;
}

// The rows from lo on, as many as `out` has, by distance. From the last to the first, each is put into the order of those behind it.
fn sort_few(ds: &[f64], lo: usize, out: &mut [u32])
    requires { (length ds.now ≤ 1024) × (lo + length out.old ≤ length ds.now) }
    ensures { out.new ≡ ordered ds.now lo (length out.old) }
{
    for k in (0..out.len()).rev() {
        insert_row(ds, (lo + k) as u32, &mut out[k..]);
    }
}

// A row of each of two lists, by distance; of equal ones the first list's is the near one.
#[derive(Clone, Copy)]
struct Compared {
    near: u32,
    far: u32,
    // whether the second list's row is the near one
    second: bool,
}

// Row x of the first list and row y of the second. The compiler picks without a branch, which could not be foretold.
fn compare(ds: &[f64], x: u32, y: u32) -> Compared
    requires { (length ds.now ≤ 1024) × (x < length ds.now) × (y < length ds.now) }
    ensures second_value { result.second ≡ is_nearer ds.now y x }
    ensures near_value { (result.near ≡ cond result.second y x) × (result.far ≡ cond result.second x y) }
{
    if is_nearer(ds, y, x) {
        Compared {
            near: y,
            far: x,
            second: true,
        }
    } else {
        Compared {
            near: x,
            far: y,
            second: false,
        }
    }
}

// The first row of two lists' merge.
fn first_row(ds: &[f64], a: &[u32], b: &[u32]) -> u32
    requires { (length ds.now ≤ 1024) × Below (length ds.now) a.now × Below (length ds.now) b.now × (0 < length b.now) }
    ensures { result ≡ get_or (merged ds.now a.now b.now) 0 0 }
{
    if a.is_empty() {
        return b[0];
    }
    let compared = compare(ds, a[0], b[0]);
    compared.near
}

// Two halves in order into one list, from both ends at once: neither end waits for the other. Turn k stores at k
// from each end, so the turns are numbered.
fn merge(ds: &[f64], a: &[u32], b: &[u32], out: &mut [u32])
    requires { Halves ds.now a.now b.now × (length out.old ≡ length a.now + length b.now) }
    ensures { out.new ≡ merged ds.now a.now b.now }
{
    let n = out.len();
    let half = a.len();
    let mut taken = 0;
    let mut left = half;
    for k in 0..half {
        let front = compare(ds, a[taken], b[k - taken]);
        out[k] = front.near;
        taken += !front.second as usize;
        let end = n - k;
        let back = compare(ds, a[left - 1], b[end - left - 1]);
        out[end - 1] = back.far;
        left -= back.second as usize;
    }
    if n == 2 * half {
        return;
    }
    out[half] = first_row(ds, &a[taken..], &b[half - taken..]);
}

// The rows from lo on, as many as `out` has, by distance. The halves are put into `spare` in order, each with `out` to spare.
fn sort(ds: &[f64], lo: usize, out: &mut [u32], spare: &mut [u32])
    requires { (length ds.now ≤ 1024) × (lo + length out.old ≤ length ds.now) × (length spare.old ≡ length out.old) × Numeric ds.now }
    ensures { out.new ≡ ordered ds.now lo (length out.old) }
{
    let n = out.len();
    if n <= FEW {
        sort_few(ds, lo, out);
        return;
    }
    let m = n / 2;
    let (first, second) = spare.split_at_mut(m);
    let (first_spare, second_spare) = out.split_at_mut(m);
    sort(ds, lo, first, first_spare);
    sort(ds, lo + m, second, second_spare);
    merge(ds, first, second, out);
}

// All rows by distance, equal ones by lower index.
pub fn order_row(ds: &[f64], row: &mut [u32])
    requires { (length ds.now ≤ 1024) × (length row.old ≡ length ds.now) × Numeric ds.now }
    ensures { row.new ≡ ordered ds.now 0 (length ds.now) }
{
    let mut spare: [u32; 1024] = [0; 1024];
    let n = row.len();
    sort(ds, 0, row, &mut spare[..n]);
}
