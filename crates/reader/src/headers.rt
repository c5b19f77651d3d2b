// The records of the kinds, read from framed octets. Unicast and area differ in their last vector, and stay two: each calls
// it by its own name.
use crate::framed::Framed;
use fields::sequence_number::SequenceNumber;
use octets::fault::OctetFault;
use octets::read::FromOctets;
use packets::headers::{AreaHeader, BeaconHeader, MultiHopHeader, SingleHopHeader, UnicastHeader};
use vectors::area::Area;
use vectors::long::LongPositionVector;
use vectors::short::ShortPositionVector;

impl Framed<'_> {
    ghost use Rattle.std.specs.Prelude.{◌≡◌};
    ghost use Rattle.packets.specs.Common.{common_of};
    ghost use Rattle.packets.specs.Reading.{beacon_at, unicast_at, area_header_at, single_hop_at, multi_hop_at};

    pub(crate) fn beacon(&self) -> Result<BeaconHeader, OctetFault>
        ensures { result ≡ beacon_at (common_of self.now.octets.now) self.now.octets.now }
    {
        let common = self.common();
        let source = LongPositionVector::read(self.octets, 12)?;
        Ok(BeaconHeader { common, source })
    }

    pub(crate) fn unicast(&self) -> Result<UnicastHeader, OctetFault>
        ensures { result ≡ unicast_at (common_of self.now.octets.now) self.now.octets.now }
    {
        let common = self.common();
        let number = u16::read(self.octets, 12)?;
        let source = LongPositionVector::read(self.octets, 16)?;
        let destination = ShortPositionVector::read(self.octets, 40)?;
        Ok(UnicastHeader {
            common,
            number: SequenceNumber { value: number },
            source,
            destination,
        })
    }

    pub(crate) fn area(&self) -> Result<AreaHeader, OctetFault>
        ensures { result ≡ area_header_at (common_of self.now.octets.now) self.now.octets.now }
    {
        let common = self.common();
        let number = u16::read(self.octets, 12)?;
        let source = LongPositionVector::read(self.octets, 16)?;
        let area = Area::read(self.octets, 40)?;
        Ok(AreaHeader {
            common,
            number: SequenceNumber { value: number },
            source,
            area,
        })
    }

    pub(crate) fn single_hop(&self) -> Result<SingleHopHeader, OctetFault>
        ensures { result ≡ single_hop_at (common_of self.now.octets.now) self.now.octets.now }
    {
        let common = self.common();
        let source = LongPositionVector::read(self.octets, 12)?;
        let media = u32::read(self.octets, 36)?;
        Ok(SingleHopHeader {
            common,
            source,
            media,
        })
    }

    pub(crate) fn multi_hop(&self) -> Result<MultiHopHeader, OctetFault>
        ensures { result ≡ multi_hop_at (common_of self.now.octets.now) self.now.octets.now }
    {
        let common = self.common();
        let number = u16::read(self.octets, 12)?;
        let source = LongPositionVector::read(self.octets, 16)?;
        Ok(MultiHopHeader {
            common,
            number: SequenceNumber { value: number },
            source,
        })
    }
}
