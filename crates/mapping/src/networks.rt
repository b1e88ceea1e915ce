// The network that a field writes.
ghost use Rattle.std.specs.Prelude.{◌≡◌};
ghost use Rattle.mapping.specs.networks.Networks.{found_network};

use crate::Header;
use rules::Network;

// The network that is written so, of as many as the header allows: by one digit, or by two of which the first is not 0.
#[tactic(auto, using(crate::proofs::networks::NetworkLaws::one_digit, crate::proofs::networks::NetworkLaws::two_digits, crate::proofs::networks::NetworkLaws::no_digits))]
pub(crate) fn network_of(field: &[u8], header: Header) -> Option<Network>
    ensures { result ≡ found_network header.most field.now }
{
    match field {
        [a @ b'0'..=b'9'] => Some(Network(*a - b'0')),
        [a @ b'1'..=b'6', b @ b'0'..=b'9'] => {
            let n = (*a - b'0') * 10 + (*b - b'0');
            if header.most <= n as usize {
                return None;
            }
            Some(Network(n))
        }
        _ => None,
    }
}
