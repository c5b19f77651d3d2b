// What is refused before the record of a packet is read.
ghost use Rattle.std.specs.Prelude.{◌≡◌};
ghost use Rattle.packets.specs.Reading.{limits};

use packets::common::CommonHeader;
use packets::fault::HeaderFault;
use packets::kind::Kind;

// Refusals 7 and 8: the hop limits and the lifetime.
pub(crate) fn check_limits(kind: Kind, common: &CommonHeader) -> Result<(), HeaderFault>
    ensures { result ≡ limits kind common.now }
{
    if !common.hop_limits_fit(kind) {
        return Err(HeaderFault::HopLimit);
    }
    if !common.lifetime_fits() {
        return Err(HeaderFault::Lifetime);
    }
    Ok(())
}
