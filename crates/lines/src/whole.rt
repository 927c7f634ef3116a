// A whole text in a lent place.

ghost use Rattle.std.specs.Prelude.{◌≡◌, List, ℕ};
ghost use Rattle.deployment.specs.FieldValues.{left_by, writing};
ghost use Rattle.lines.specs.Printing.{PutsAlways};

use deployment::{Refusal, Why};

// What `put` puts, where the place has room for it; else how many bytes it needs: it is put into no place at all, and counted. Room for the
// longest text, of `most` bytes, needs no count.
pub fn whole_text<F: Fn(&mut [u8]) -> usize>(
    put: F,
    most: usize,
    place: &mut [u8],
) -> Result<usize, Refusal>
    requires { F.IsAlwaysCallable put }
    ensures { (text : List ℕ) → PutsAlways (F.post put) most text → left_by result place.new ≡ writing text place.old }
{
    if most <= place.len() {
        return Ok(put(place));
    }
    let mut nowhere = [0u8; 0];
    let needed = put(&mut nowhere);
    if place.len() < needed {
        return Err(Refusal {
            why: Why::Room,
            at: needed,
        });
    }
    Ok(put(place))
}
