// Saved rules of other filters, brought in.

ghost use Rattle.iptables.specs.Answers.{file_of_listing};
ghost use Rattle.pageoriole.specs.Answers.{Leaves, write_outcome};

use iptables_reader::from_iptables;
use told::tell_written;

// The deployment file of a listing as `iptables-save` writes it, in the first bytes of `place`: bytes.
#[unsafe(no_mangle)]
pub extern "C" fn pageoriole_from_iptables(
    listing: &[u8],
    place: &mut [u8],
    answer: &mut [u64],
) -> u32
    ensures { Leaves
        (write_outcome (file_of_listing listing.now place.old))
        result answer.old answer.new place.new }
{
    tell_written(from_iptables(listing, place), answer)
}
