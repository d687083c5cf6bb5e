// Whether lists are permutations: "only a true one is accepted". Inside the library. After document 01, refusal 11.
#![tactic(auto)]

ghost use Rattle.std.specs.Prelude.{◌≡◌, ◌-◌, ◌*◌, ◌%◌, ◌<◌, ◌≤◌, false, not, length};
ghost use Rattle.scope.specs.Permutations.{block, wrong_permutations};
ghost use Rattle.permutations.specs.Marks.{is_marked, with_mark, Serves, shows_wrong, with_value, Passed, PassedAll, all_true};

// p proposed permutations, one after another in one list.
#[derive(Clone, Copy)]
pub struct Permutations<'a> {
    pub indices: &'a [usize],
    pub p: usize,
}

impl<'a> Permutations<'a> {
    // Permutation number q, where each has l indices.
    pub fn at(self, q: usize, l: usize) -> &'a [usize]
        requires { (q < self.p) × (length self.indices.now ≡ self.p * l) }
        ensures { result.now ≡ block l self.entry.indices.now q }
    {
        let start = q * l;
        &self.indices[start..start + l]
    }
}

// How many bytes of marks a pass has at most.
const BYTES: usize = 65536;

// How many values they serve: a mark is a bit.
const SERVED: usize = 524288;

// Marks the value number n of a pass. Whether it was marked already.
// Values that follow each other lie in different bytes, so that no mark waits for the one before it.
fn mark(n: usize, marks: &mut [u8]) -> bool
    requires { (n < 524288) × (n % 65536 < length marks.old) }
    ensures found { result ≡ is_marked n marks.old }
    ensures marks { result ≡ false → marks.new ≡ with_mark n marks.old }
{
    let at = n % BYTES;
    let bit = n / BYTES;
    if (marks[at] >> bit) % 2 == 1 {
        return true;
    }
    marks[at] |= 1 << bit;
    false
}

// What a pass judges: permutations of l indices each. Of the values below l it serves those from low to high - 1.
#[derive(Clone, Copy)]
struct Pass<'a> {
    permutations: Permutations<'a>,
    l: usize,
    low: usize,
    high: usize,
    ghost in_order: { (length permutations.indices.now ≡ permutations.p * l) × (low ≤ high) × (high ≤ l) },
}

impl Pass<'_> {
    // Whether v shows that a proposed permutation is wrong: it is out of range, or a value that is served and marked already.
    // The difference wraps, so that one comparison tells whether v is served.
    fn shows_wrong(self, v: usize, marks: &mut [u8]) -> bool
        requires { Serves self.l self.low self.high marks.old }
        ensures found { result ≡ shows_wrong self.entry.l self.entry.low self.entry.high v marks.old }
        ensures marks { result ≡ false → marks.new ≡ with_value self.entry.low self.entry.high v marks.old }
    {
        let n = v.wrapping_sub(self.low);
        if n < self.high - self.low {
            return mark(n, marks);
        }
        self.l <= v
    }

    // Whether a proposed permutation is wrong, as far as one pass shows: an entry is out of range, or a value that is served stands twice.
    fn holds_wrong(self, permutation: &[usize], marks: &mut [u8]) -> bool
        requires { Serves self.l self.low self.high marks.old }
        ensures { Passed self.entry.l self.entry.low self.entry.high permutation.now result }
    {
        marks.fill(0);
        for &v in permutation {
            if self.shows_wrong(v, marks) {
                return true;
            }
        }
        false
    }

    // Whether one of the permutations is wrong, as far as this pass shows.
    // They are taken by number: `chunks_exact` admits no length of 0.
    fn any_wrong_with(self, marks: &mut [u8]) -> bool
        requires { Serves self.l self.low self.high marks.old }
        ensures { PassedAll self.entry.permutations.p self.entry.l self.entry.low self.entry.high self.entry.permutations.indices.now result }
    {
        for q in 0..self.permutations.p {
            if self.holds_wrong(self.permutations.at(q, self.l), marks) {
                return true;
            }
        }
        false
    }

    // `any_wrong_with`, with marks of its own: 64 KiB of the stack.
    fn any_wrong_within(self) -> bool
        requires { self.high - self.low ≤ 524288 }
        ensures { PassedAll self.entry.permutations.p self.entry.l self.entry.low self.entry.high self.entry.permutations.indices.now result }
    {
        let mut marks = [0u8; BYTES];
        self.any_wrong_with(&mut marks)
    }

    // `any_wrong_with`, in as many passes as the values take: half of them, then the rest.
    // A loop would do; a function that calls itself keeps those 64 KiB out of its callers' stack, where the compiler would else put them for every length.
    fn any_wrong_between(self) -> bool
        ensures { PassedAll self.entry.permutations.p self.entry.l self.entry.low self.entry.high self.entry.permutations.indices.now result }
    {
        if self.high - self.low <= SERVED {
            return self.any_wrong_within();
        }
        let Pass {
            permutations,
            l,
            low,
            high,
        } = self;
        let passes = (high - low) / SERVED + 1;
        let middle = low + passes / 2 * SERVED;
        // Field by field: a struct that carries a fact takes no `..`.
        let first = Pass {
            permutations,
            l,
            low,
            high: middle,
        };
        let rest = Pass {
            permutations,
            l,
            low: middle,
            high,
        };
        first.any_wrong_between() || rest.any_wrong_between()
    }
}

// The greatest admitted length.
const ADMITTED: usize = 4096;

// So many bytes are cleared without a call, which for short permutations would take longer than the pass.
const FEW: usize = 64;

// Whether one of short permutations is wrong. In a frame of its own, where its marks lie near: in its callers' the loop over them took twice as long (measured).
#[tactic(auto, using(crate::proofs::Passes::passed_whole))]
#[inline(never)]
fn any_wrong_of_few(permutations: Permutations, l: usize) -> bool
    requires { (length permutations.indices.now ≡ permutations.p * l) × (l ≤ 64) }
    ensures { result ≡ not (all_true permutations.entry.p l permutations.entry.indices.now) }
{
    let whole = Pass {
        permutations,
        l,
        low: 0,
        high: l,
    };
    let mut marks = [0u8; FEW];
    whole.any_wrong_with(&mut marks)
}

// Whether one of the permutations is wrong. An admitted length takes one pass, in which each value has a byte of its own.
#[tactic(auto, using(crate::proofs::Passes::passed_whole))]
fn any_wrong(permutations: Permutations, l: usize) -> bool
    requires { length permutations.indices.now ≡ permutations.p * l }
    ensures { result ≡ not (all_true permutations.entry.p l permutations.entry.indices.now) }
{
    if l <= FEW {
        return any_wrong_of_few(permutations, l);
    }
    let whole = Pass {
        permutations,
        l,
        low: 0,
        high: l,
    };
    if l <= ADMITTED {
        let mut marks = [0u8; ADMITTED];
        return whole.any_wrong_with(&mut marks[..l]);
    }
    whole.any_wrong_between()
}

const MOST_PERMUTATIONS: usize = 999;

// Whether there are too many permutations, their entries do not number p * l, or one of them is no permutation of 0..l-1.
// Where there are none, no pass is to run, however long they would be.
#[tactic(auto, using(crate::proofs::Passes::none_true), unfolding(scope::specs::Permutations::wrong_permutations))]
pub fn wrong_permutations(permutations: Permutations, l: usize) -> bool
    ensures { result ≡ wrong_permutations permutations.entry.p l permutations.entry.indices.now }
{
    MOST_PERMUTATIONS < permutations.p
        || permutations.p.checked_mul(l) != Some(permutations.indices.len())
        || (0 < permutations.p && any_wrong(permutations, l))
}
