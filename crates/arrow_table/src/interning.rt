ghost use Rattle.std.specs.Prelude.{◌≡◌, ◌≢◌, ◌<◌, IsTrue, false, length};

use state_sets::Arrow;

/// An odd number of 64 bits, by which prints are spread.
const SPREAD: u64 = 0x517c_c1b7_2722_0a95;

/// Whether two maps are the same.
pub fn same_map(one: &Arrow, other: &Arrow) -> bool
    ensures same { IsTrue result → one.now ≡ other.now }
    ensures different { result ≡ false → one.now ≢ other.now }
{
    if one.len() != other.len() {
        return false;
    }
    for i in 0..one.len() {
        let (start, target) = one.pair(i);
        let (other_start, other_target) = other.pair(i);
        if start.0 != other_start.0 || target.0 != other_target.0 {
            return false;
        }
    }
    true
}

/// A number by which a map is looked for. It is a hint alone: whoever finds a map by it compares the maps.
pub fn print_of(arrow: &Arrow) -> u64 {
    let mut print: u64 = 0;
    for i in 0..arrow.len() {
        let (start, target) = arrow.pair(i);
        let pair = u64::from(start.0) << 32 | u64::from(target.0);
        print = (print.rotate_left(5) ^ pair).wrapping_mul(SPREAD);
    }
    print
}
