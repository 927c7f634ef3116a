// Numbers one behind the other, a blank ahead of each.

ghost use Rattle.lines.specs.Printing.{PutsAll};

use super::words::put_spaced;

// All of the numbers.
pub fn put_numbers(place: &mut [u8], at: usize, numbers: &[usize]) -> usize
    ensures { PutsAll place.old at numbers.now place.new result }
{
    let mut next = at;
    for n in numbers {
        next = put_spaced(place, next, *n);
    }
    next
}
