// The combs of a turned or mirrored box, painted in a layer's part of the wiring buffer: each line is the pin that the moved box has at
// its end, read by the pin lookup and copied nowhere else. All functions here are for our own crates.
#![tactic(auto)]

ghost use Rattle.std.specs.Prelude.{◌≡◌, ◌*◌, ◌≤◌, length, get_or};
ghost use Rattle.counting.specs.Counting.{In};
ghost use Rattle.terms.specs.Limits.{longest_side};
ghost use Rattle.paint.specs.Paint.{Striped};

use orientation::pin_on_line;

// Column i is the pin on line i, from end to end of its w tracks.
pub fn column_comb(part: &mut [u8], own: &[u8], reversed: bool, w: usize)
    requires { In (length own.now) longest_side × (1 ≤ w) × (length part.old ≡ length own.now * w) }
    ensures { Striped part.old part.new (length own.now) w
        (λ i j. get_or own.now i 0) }
{
    let n = own.len();
    paint::fill_by(&mut part[..n], |i| pin_on_line(own, reversed, i + 1));
    paint::repeat(part, n, w);
}

// Track j is the pin on line j in each of its n columns.
pub fn track_comb(part: &mut [u8], own: &[u8], reversed: bool, n: usize)
    requires { (length own.now ≤ longest_side) × (length part.old ≡ n * length own.now) }
    ensures { Striped part.old part.new n (length own.now)
        (λ i j. get_or own.now j 0) }
{
    paint::tracks_by(part, n, own.len(), |j| pin_on_line(own, reversed, j + 1));
}
