// Octets taken apart, and put together again.
ghost use Rattle.outcomes.specs.Outcomes.{Examined, WrittenBack};

use crate::taken::Taken;
use packets::fault::HeaderFault;
use reader::read::read;
use roundtrip::trips::rewrite;

// The packet that the octets are, or why they are none.
pub fn examine<'a>(octets: &'a [u8]) -> Result<Taken<'a>, HeaderFault>
    ensures { Examined octets.now result }
{
    let packet = read(octets)?;
    Ok(Taken {
        packet,
        count: octets.len(),
        same: written_back(octets),
    })
}

// Whether the packet that the octets are is written as these octets. The writer fills a fixed buffer and takes no heap.
fn written_back(octets: &[u8]) -> bool
    ensures { WrittenBack octets.now result }
{
    let mut buffer = [0; 1458];
    // is_ok_and would say the same, but its proof does not close.
    let Ok(count) = rewrite(octets, &mut buffer) else {
        return false;
    };
    &buffer[0..count] == octets
}
