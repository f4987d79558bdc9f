// A stable merge sort of numbers by the floats that they name.
#![tactic(auto)]

ghost use Rattle.std.specs.Prelude.{◌≡◌, ◌≤◌, ◌<◌, length, take, drop, get_or};
ghost use Rattle.tree_sort.specs.Sort.{by_key, HasKey, inserted, sorted, merged};
ghost use Rattle.lists.specs.Lists.{Each};

fn precedes(keys: &[f64], a: u32, b: u32) -> bool
    requires { (a < length keys.now) × (b < length keys.now) }
    ensures { result ≡ by_key keys.now a b }
{
    let x = a as usize;
    let y = b as usize;
    keys[x] < keys[y]
}

// The first n elements of `to` become those of `from`.
fn copy(from: &[u32], to: &mut [u32], n: usize)
    requires { (n ≤ length from.now) × (n ≤ length to.old) }
    ensures { take n to.new ≡ take n from.now }
{
    // no `copy_from_slice`: it calls memmove, which an archive for C would need from outside
    for i in 0..n {
        to[i] = from[i];
    }
}

// The two parts of `order`, of which the first has m elements, are merged.
fn merge(keys: &[f64], order: &mut [u32], m: usize, work: &mut [u32])
    requires { (m ≤ length order.old) × (m ≤ length work.old) × Each (HasKey keys.now) order.old }
    ensures { order.new ≡ merged (by_key keys.now) (take m order.old) (drop m order.old) }
{
    copy(order, work, m);
    let n = order.len();
    let mut i = 0;
    let mut j = m;
    let mut k = 0;
    // no `for`: a turn moves either i or j
    while i < m {
        let p = work[i];
        if j < n {
            let q = order[j];
            if precedes(keys, q, p) {
                order[k] = q;
                j += 1;
                k += 1;
                continue;
            }
        }
        order[k] = p;
        i += 1;
        k += 1;
    }
}

// The first element is put among the others, which are sorted.
fn insert(keys: &[f64], order: &mut [u32])
    requires { (0 < length order.old) × Each (HasKey keys.now) order.old }
    ensures { order.new ≡ inserted (by_key keys.now) (get_or order.old 0 0) (drop 1 order.old) }
{
    let n = order.len();
    let x = order[0];
    for i in 1..n {
        let y = order[i];
        if precedes(keys, y, x) {
            order[i - 1] = y;
        } else {
            order[i - 1] = x;
            return;
        }
    }
    order[n - 1] = x;
}

// The insertion sort itself, which is the faster one for few elements.
fn insertion_sort(keys: &[f64], order: &mut [u32])
    requires { Each (HasKey keys.now) order.old }
    ensures { order.new ≡ sorted (by_key keys.now) order.old }
{
    for i in (0..order.len()).rev() {
        insert(keys, &mut order[i..]);
    }
}

pub fn sort(keys: &[f64], order: &mut [u32], work: &mut [u32])
    requires { (length order.old ≤ length work.old) × Each (HasKey keys.now) order.old }
    ensures { order.new ≡ sorted (by_key keys.now) order.old }
{
    let n = order.len();
    if n <= 12 {
        insertion_sort(keys, order);
        return;
    }
    let m = n / 2;
    sort(keys, &mut order[..m], work);
    sort(keys, &mut order[m..], work);
    merge(keys, order, m, work);
}
