ghost use Rattle.std.specs.Prelude.{◌≡◌, take};

// So much of a slice as a row lends: the first n, or all where there are fewer.
pub fn part_mut<T>(all: &mut [T], n: usize) -> &mut [T]
    ensures { result.now ≡ take n all.old }
{
    let n = n.min(all.len());
    &mut all[..n]
}
