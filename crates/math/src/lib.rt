// Linear equations by Gaussian elimination with partial pivoting, in f64.
#![tactic(auto)]

ghost use Rattle.std.specs.Prelude.{◌≡◌, true, not, ℕ, ◌<◌, ◌≤◌, length, get_or};
ghost use Rattle.std.specs.Float.{nan};
ghost use Rattle.std.specs.Float.Ieee.{lt};
ghost use Rattle.float.specs.Floats.{abs_of};
ghost use Rattle.float.specs.Steps.{◌⊟◌, ◌⊠◌, ◌⧄◌};
ghost use Rattle.math.specs.Solve.{Vector, augmented, pivot_row, swapped, reduced, row_cleared, cleared, upper, singular, remainder, unknowns, first_unknowns, solution_of};

use float::Float;

// N equations in N unknowns: the matrix [a | b].
#[derive(Clone, Copy)]
struct System<const N: usize> {
    a: [[f64; N]; N],
    b: [f64; N],
}

// Whether x is the larger in magnitude.
fn larger(x: f64, y: f64) -> bool
    ensures { result ≡ lt (abs_of y) (abs_of x) }
{
    let a = Float::abs(x);
    let b = Float::abs(y);
    a > b
}

// The row loses f times the pivot's row, from column c on.
fn reduce<const N: usize>(row: &mut [f64; N], pivot: &[f64; N], c: usize, f: f64)
    ensures len { length row.new ≡ N }
    ensures before { (k : ℕ) → k < c → get_or row.new k nan ≡ get_or row.old k nan }
    ensures after { (k : ℕ) → c ≤ k → k < N → get_or row.new k nan ≡ get_or row.old k nan ⊟ f ⊠ get_or pivot.now k nan }
{
    for k in c..N {
        row[k] = row[k] - f * pivot[k];
    }
}

impl<const N: usize> System<N> {
    // ---- elimination

    fn pivot_row(&self, c: usize) -> usize
        requires c_lt_n { c < N }
        ensures upper_bound { result < N }
        ensures value { result ≡ pivot_row (augmented N self.now.a self.now.b) c N }
    {
        let mut p = c;
        for r in c + 1..N {
            if larger(self.a[r][c], self.a[p][c]) {
                p = r;
            }
        }
        p
    }

    fn swap_rows(&mut self, p: usize, q: usize)
        requires p_lt_n { p < N }
        requires q_lt_n { q < N }
        ensures { augmented N self.new.a self.new.b ≡ swapped (augmented N self.old.a self.old.b) p q }
    {
        self.a.swap(p, q);
        self.b.swap(p, q);
    }

    // Row r loses f times row c, from column c on.
    fn reduce_row(&mut self, c: usize, r: usize, f: f64)
        requires c_lt_r { c < r }
        requires r_lt_n { r < N }
        ensures { augmented N self.new.a self.new.b ≡ reduced (augmented N self.old.a self.old.b) c r f }
    {
        let pivot = self.a[c];
        reduce(&mut self.a[r], &pivot, c, f);
        self.b[r] = self.b[r] - f * self.b[c];
    }

    fn eliminate_row(&mut self, c: usize, r: usize)
        requires c_lt_r { c < r }
        requires r_lt_n { r < N }
        ensures { augmented N self.new.a self.new.b ≡ row_cleared (augmented N self.old.a self.old.b) c r }
    {
        let f = self.a[r][c] / self.a[c][c];
        if f == 0.0 {
            return;
        }
        self.reduce_row(c, r, f);
    }

    fn eliminate(&mut self, c: usize)
        requires c_lt_n { c < N }
        ensures { augmented N self.new.a self.new.b ≡ cleared (augmented N self.old.a self.old.b) c N }
    {
        for r in c + 1..N {
            self.eliminate_row(c, r);
        }
    }

    // Whether every pivot is large enough; if so, the system is upper triangular.
    fn triangulate(&mut self) -> bool
        ensures value { result ≡ not (singular N (augmented N self.old.a self.old.b) N) }
        ensures holds { result ≡ true → augmented N self.new.a self.new.b ≡ upper N (augmented N self.old.a self.old.b) N }
    {
        for c in 0..N {
            let p = self.pivot_row(c);
            self.swap_rows(c, p);
            if Float::abs(self.a[c][c]) < 1e-12 {
                return false;
            }
            self.eliminate(c);
        }
        true
    }

    // ---- back substitution

    fn unknown(&self, r: usize, x: &[f64; N]) -> f64
        requires r_lt_n { r < N }
        ensures { (y : Vector) → ((k : ℕ) → k < N → get_or x.now k nan ≡ y k) → result ≡ remainder N (augmented N self.now.a self.now.b) r y N ⧄ augmented N self.now.a self.now.b r r }
    {
        let mut s = self.b[r];
        for k in r + 1..N {
            s = s - self.a[r][k] * x[k];
        }
        s / self.a[r][r]
    }

    fn back_substitute(&self) -> [f64; N]
        ensures { result ≡ first_unknowns N (unknowns N (augmented N self.now.a self.now.b) N) }
    {
        let mut x = [0.0; N];
        for r in (0..N).rev() {
            x[r] = self.unknown(r, &x);
        }
        x
    }
}

// The unknowns, or none.
pub fn solve<const N: usize>(a: &[[f64; N]; N], b: &[f64; N]) -> Option<[f64; N]>
    ensures { result ≡ solution_of N (augmented N a.now b.now) }
{
    let mut system = System { a: *a, b: *b };
    if system.triangulate() {
        Some(system.back_substitute())
    } else {
        None
    }
}
