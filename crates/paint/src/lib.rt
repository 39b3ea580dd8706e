// A layer's part of the wiring buffer, painted in full lines: by column, by track, or with one value.
// All functions here are for our own crates.
#![tactic(auto)]

ghost use Rattle.std.specs.Prelude.{ℕ, ◌≡◌, ◌*◌, ◌≤◌, ◌<◌, length, get_or};
ghost use Rattle.terms.specs.Limits.{longest_side};
ghost use Rattle.paint.specs.Paint.{Striped, Lined, Block};

use terms::LONGEST_SIDE;

// A narrow row is written as so many bytes, which is one store; what runs past its end the next rows overwrite.
const STORE: usize = 16;

// The bytes of the longest row, eight times.
const BLOCK: usize = 8 * LONGEST_SIDE;

// Each byte of the part is v.
pub fn fill(part: &mut [u8], v: u8)
    ensures { Striped part.old part.new (length part.old) 1 (λ i j. v) }
{
    part.fill(v);
}

// Byte i of the part, counted from 0, is the value of i.
pub fn fill_by<F: Fn(usize) -> u8>(part: &mut [u8], value: F)
    requires { (i : ℕ) → i < length part.old → F.pre value i }
    ensures { Lined part.old part.new (length part.old) 1 (λ i j. F.post value i) }
{
    for i in 0..part.len() {
        part[i] = value(i);
    }
}

// Of w rows each is a copy of row. Kept beside `repeat_narrow`: here a row has any length, there it is one store of sixteen bytes, from an
// array that the compiler keeps in a register.
fn rows(part: &mut [u8], row: &[u8], w: usize)
    requires { length part.old ≡ length row.now * w }
    ensures { Striped part.old part.new (length row.now) w (λ i j. get_or row.now i 0) }
{
    let n = row.len();
    for j in 0..w {
        part[j * n..j * n + n].copy_from_slice(row);
    }
}

// Eight copies of row, which has no more bytes than the longest side has places.
fn eight_copies(row: &[u8]) -> [u8; BLOCK]
    requires { length row.now ≤ longest_side }
    ensures { Block result row.now }
{
    let mut block = [0u8; BLOCK];
    rows(&mut block[..8 * row.len()], row, 8);
    block
}

// Of w rows each is a copy of row, as long as that at most. From 16 rows on eight are copied at once, and the last w % 8 one by one.
fn wide_rows(part: &mut [u8], row: &[u8], w: usize)
    requires { (length row.now ≤ longest_side) × (length part.old ≡ length row.now * w) }
    ensures { Striped part.old part.new (length row.now) w (λ i j. get_or row.now i 0) }
{
    if w < 16 {
        rows(part, row, w);
        return;
    }
    let n = row.len();
    let blocks = w / 8;
    let from = 8 * n * blocks;
    let block = eight_copies(row);
    rows(&mut part[..from], &block[..8 * n], blocks);
    rows(&mut part[from..], &block[..n], w % 8);
}

// Each row becomes a copy of the first, of at most 16 bytes, in a part of no fewer. The compiler keeps the array in a register. The last
// rows, where fewer than 16 bytes are left, are copied as they are.
fn repeat_narrow(part: &mut [u8], n: usize, w: usize)
    requires { (1 ≤ n) × (n ≤ 16) × (16 ≤ length part.old) × (length part.old ≡ n * w) }
    ensures { Striped part.old part.new n w (λ i j. get_or part.old i 0) }
{
    let mut row = [0u8; STORE];
    row.copy_from_slice(&part[..STORE]);
    let stores = w - 15 / n;
    for j in 0..stores {
        part[j * n..j * n + STORE].copy_from_slice(&row);
    }
    for j in stores..w {
        part[j * n..j * n + n].copy_from_slice(&row[..n]);
    }
}

// The same of rows that are no longer than the longest side.
fn repeat_wide(part: &mut [u8], n: usize, w: usize)
    requires { (n ≤ longest_side) × (1 ≤ w) × (length part.old ≡ n * w) }
    ensures { Striped part.old part.new n w (λ i j. get_or part.old i 0) }
{
    let mut row = [0u8; LONGEST_SIDE];
    row[..n].copy_from_slice(&part[..n]);
    wide_rows(part, &row[..n], w);
}

// Each of the w rows becomes a copy of the first, which has n bytes.
pub fn repeat(part: &mut [u8], n: usize, w: usize)
    requires { (1 ≤ n) × (n ≤ longest_side) × (1 ≤ w) × (length part.old ≡ n * w) }
    ensures { Striped part.old part.new n w (λ i j. get_or part.old i 0) }
{
    if w == 1 {
        return;
    }
    if n == 1 {
        let v = part[0];
        part.fill(v);
        return;
    }
    if n <= STORE && STORE <= part.len() {
        repeat_narrow(part, n, w);
        return;
    }
    repeat_wide(part, n, w);
}

// Of w tracks each is a copy of values, so that column i is values[i - 1] from end to end.
pub fn columns(part: &mut [u8], values: &[u8], w: usize)
    requires { length part.old ≡ length values.now * w }
    ensures { Striped part.old part.new (length values.now) w
        (λ i j. get_or values.now i 0) }
{
    let n = values.len();
    if n == 0 || n > LONGEST_SIDE || w == 0 {
        rows(part, values, w);
        return;
    }
    part[..n].copy_from_slice(values);
    repeat(part, n, w);
}

// Each of the w rows has n bytes, and row j, counted from 0, is the value of j in each. A row of at most 16 bytes is one store, but for the
// last rows, where fewer than 16 bytes are left. A row of one byte is apart, for the compiler makes a call of `memset` of each row.
pub fn tracks_by<F: Fn(usize) -> u8>(part: &mut [u8], n: usize, w: usize, value: F)
    requires size { length part.old ≡ n * w }
    requires called { (j : ℕ) → j < w → F.pre value j }
    ensures { Lined part.old part.new n w (λ i j. F.post value j) }
{
    if n == 0 {
        return;
    }
    if n == 1 {
        fill_by(part, value);
        return;
    }
    let last = if n <= STORE { w.min(15 / n) } else { w };
    for j in 0..w - last {
        part[j * n..j * n + STORE].fill(value(j));
    }
    for j in w - last..w {
        part[j * n..j * n + n].fill(value(j));
    }
}

// Track j is values[j - 1] in each of its n columns.
pub fn tracks(part: &mut [u8], values: &[u8], n: usize)
    requires { length part.old ≡ n * length values.now }
    ensures { Striped part.old part.new n (length values.now)
        (λ i j. get_or values.now j 0) }
{
    tracks_by(part, n, values.len(), |j| values[j]);
}
