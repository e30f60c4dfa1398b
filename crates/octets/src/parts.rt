// Byte strings and parts of them: tested for zeros, cleared, copied, laid over another.
ghost use Rattle.std.specs.Prelude.{◌≡◌, ◌+◌, ◌≤◌, length, replicate};
ghost use Rattle.octets.specs.Parts.{part, zeros_b, over};

// Is every byte of `s` zero? Ors all of them and tests once: with no way out of the loop
// the compiler makes vector code of it.
pub fn zeros(s: &[u8]) -> bool
    ensures { result ≡ zeros_b s.now }
{
    let mut any = 0;
    for x in s {
        any |= *x;
    }
    any == 0
}

// Every byte of `s` becomes zero.
pub fn clear(s: &mut [u8])
    ensures { s.new ≡ replicate (length s.old) 0 }
{
    s.fill(0);
}

// `to` becomes a copy of `from`, byte by byte: so few come here that `copy_from_slice`, which calls memcpy, takes 51 instructions for
// three of them where this takes 38.
fn copy_each(to: &mut [u8], from: &[u8])
    requires { length to.old ≡ length from.now }
    ensures { to.new ≡ from.now }
{
    for k in 0..from.len() {
        to[k] = from[k];
    }
}

// As many bytes from `k` on as `by` has, by way of it: all are read before one is written. Where `by` is an array, the compiler makes
// one load and one store of this, and needs not ask first whether `to` and `from` overlap.
fn copy_by(to: &mut [u8], from: &[u8], k: usize, by: &mut [u8])
    requires { (length to.old ≡ length from.now) × (k + length by.old ≤ length from.now) }
    ensures { to.new ≡ over to.old k (part from.now k (length by.old)) }
{
    let end = k + by.len();
    by.copy_from_slice(&from[k..end]);
    to[k..end].copy_from_slice(by);
}

// As many bytes at a time as `by` has; the last so many whether they meet the ones before or overlap them.
fn copy_steps(to: &mut [u8], from: &[u8], by: &mut [u8])
    requires { (length to.old ≡ length from.now) × (1 ≤ length by.old) × (length by.old ≤ length from.now) }
    ensures { to.new ≡ from.now }
{
    let step = by.len();
    let last = from.len() - step;
    for k in (0..last).step_by(step) {
        copy_by(to, from, k, by);
    }
    copy_by(to, from, last, by);
}

// `to` becomes a copy of `from`. Sixteen bytes at a time were tried too, and made setting the clock slower (docs/DECISIONS.md, 174).
// So was `copy_from_slice` of all of them: a call of memcpy, 50 to 55 instructions for 3 to 16 bytes where this takes 34 to 43.
pub fn copy(to: &mut [u8], from: &[u8])
    requires { length to.old ≡ length from.now }
    ensures { to.new ≡ from.now }
{
    if from.len() < 4 {
        copy_each(to, from);
        return;
    }
    if from.len() < 8 {
        let mut four = [0u8; 4];
        copy_steps(to, from, &mut four);
        return;
    }
    let mut eight = [0u8; 8];
    copy_steps(to, from, &mut eight);
}

// `bytes` are laid over `t` from `at` on.
pub fn put(t: &mut [u8], at: usize, bytes: &[u8])
    requires { at + length bytes.now ≤ length t.old }
    ensures { t.new ≡ over t.old at bytes.now }
{
    let end = at + bytes.len();
    copy(&mut t[at..end], bytes);
}
