// What the payload is: a number of four bits. The router does not look at it.
ghost use Rattle.std.specs.Prelude.{◌≡◌, ◌/◌, ◌<◌};
ghost use Rattle.fields.specs.UpperProtocols.{upper_of, upper_from, upper_number};

// The sixteen values that four bits have.
#[derive(Clone, Copy, Debug, Default, PartialEq, Eq)]
pub enum UpperProtocol {
    #[default]
    Any,
    BtpA,
    BtpB,
    Ipv6,
    Reserved4,
    Reserved5,
    Reserved6,
    Reserved7,
    Reserved8,
    Reserved9,
    Reserved10,
    Reserved11,
    Reserved12,
    Reserved13,
    Reserved14,
    Reserved15,
}

// A number that is no upper protocol, since it has more than four bits.
#[derive(Clone, Copy, Debug, PartialEq, Eq)]
pub struct NotFourBits {
    pub number: u8,
}

impl TryFrom<u8> for UpperProtocol {
    type Error = NotFourBits;

    ghost try_from_gives = { λ number answer. answer ≡ upper_from number };

    // The upper protocol of a number from 0 to 15.
    fn try_from(number: u8) -> Result<UpperProtocol, NotFourBits> {
        if number > 15 {
            return Err(NotFourBits { number });
        }
        Ok(UpperProtocol::of_four_bits(number))
    }
}

impl From<UpperProtocol> for u8 {
    ghost from_gives = { λ upper number. (number ≡ upper_number upper) × (number < 16) };

    fn from(upper: UpperProtocol) -> u8 {
        upper as u8
    }
}

impl UpperProtocol {
    // The upper protocol in the high four bits of an octet. No From: an octet says more than that.
    pub fn from_octet(octet: u8) -> UpperProtocol
        ensures { result ≡ upper_of (octet / 16) }
    {
        UpperProtocol::of_four_bits(octet / 16)
    }

    // The upper protocol of a number below 16; a greater one counts as 15. No From: that is only the step of the others.
    fn of_four_bits(number: u8) -> UpperProtocol
        ensures { result ≡ upper_of number }
    {
        match number {
            0 => UpperProtocol::Any,
            1 => UpperProtocol::BtpA,
            2 => UpperProtocol::BtpB,
            3 => UpperProtocol::Ipv6,
            4 => UpperProtocol::Reserved4,
            5 => UpperProtocol::Reserved5,
            6 => UpperProtocol::Reserved6,
            7 => UpperProtocol::Reserved7,
            8 => UpperProtocol::Reserved8,
            9 => UpperProtocol::Reserved9,
            10 => UpperProtocol::Reserved10,
            11 => UpperProtocol::Reserved11,
            12 => UpperProtocol::Reserved12,
            13 => UpperProtocol::Reserved13,
            14 => UpperProtocol::Reserved14,
            _ => UpperProtocol::Reserved15,
        }
    }
}
