// The limits of a round, and its weight.
ghost use Rattle.std.specs.Prelude.{◌≡◌};
ghost use Rattle.base.specs.Lists.{tabulate};
ghost use Rattle.planning.specs.Rounds.{limit_of};
ghost use Rattle.planning.specs.Clauses.{LimitReady, LimitsReady, limit_at, Smallest, Bears, Lost};

// The limit of an entry e over w, rounded down q, whose count is n: how much weight it bears until it leaves its bounds. It is t_ijk of Step 5 (Ernst 1981,
// Section 3) times w, where a_ij is e over w, ⌊a_ij⌋ is q and n_ijk is n.
pub fn limit(w: u64, e: u64, q: u64, n: u64) -> u64
    requires { LimitReady w e q n }
    ensures { result ≡ limit_of w e n }
{
    if n == q {
        // t_ijk = ⌊a_ij⌋ + 1 − a_ij if n_ijk = ⌊a_ij⌋
        (q + 1) * w - e
    } else {
        // t_ijk = a_ij − ⌊a_ij⌋ if n_ijk = ⌊a_ij⌋ + 1
        e - q * w
    }
}

// The limits of all entries, which over w, rounded down, are q.
pub fn limits(w: u64, e: &[u64; 169], q: &[u64; 169], n: &[u64; 169], l: &mut [u64; 169])
    requires { LimitsReady w e.now q.now n.now l.old }
    ensures { l.new ≡ tabulate 169 (limit_at w e.now n.now) }
{
    for (k, x) in l.iter_mut().enumerate() {
        *x = limit(w, e[k], q[k], n[k]);
    }
}

// The smallest of 169 numbers.
pub fn smallest(l: &[u64; 169]) -> u64
    ensures { Smallest l.now result }
{
    l.iter().fold(l[0], |x, y| x.min(*y))
}

// Takes x times each count off its entry.
pub fn lose(x: u64, n: &[u64; 169], e: &mut [u64; 169])
    requires { Bears x e.old n.now }
    ensures { Lost x e.old n.now e.new }
{
    for (k, entry) in e.iter_mut().enumerate() {
        *entry -= x * n[k];
    }
}
