// Facilities: the bits that govern a subcommand, the terminal's own maps, and what is agreed.
ghost use Rattle.std.specs.Prelude.{◌≡◌, ◌&&◌};
ghost use Rattle.words.specs.Words.{bit};
ghost use Rattle.rules.specs.Session.{no_maps};
ghost use Rattle.rules.specs.Facility.{own_format0, own_maps, receiving, agreed};

use rules::{Edition, Facility, Governor, Maps};
use words::bit;

// By the weight of its bit: of the edit map,
pub(crate) const TOROIDAL_ADDRESSING: Option<Governor> = Some(Governor::EditBit(64));

pub(crate) const INCREMENTAL_ADDRESSING: Option<Governor> = Some(Governor::EditBit(32));

pub(crate) const READ_CURSOR_ADDRESS: Option<Governor> = Some(Governor::EditBit(16));

pub(crate) const LINE_INSERT_DELETE: Option<Governor> = Some(Governor::EditBit(8));

pub(crate) const CHAR_INSERT_DELETE: Option<Governor> = Some(Governor::EditBit(4));

pub(crate) const BACK_TAB: Option<Governor> = Some(Governor::EditBit(2));

// of the erase map,
pub(crate) const ERASE_FIELD: Option<Governor> = Some(Governor::EraseBit(16));

pub(crate) const ERASE_LINE: Option<Governor> = Some(Governor::EraseBit(8));

pub(crate) const ERASE_REST_OF_SCREEN: Option<Governor> = Some(Governor::EraseBit(4));

pub(crate) const ERASE_REST_OF_LINE: Option<Governor> = Some(Governor::EraseBit(2));

pub(crate) const ERASE_REST_OF_FIELD: Option<Governor> = Some(Governor::EraseBit(1));

// of the transmit map,
pub(crate) const TRANSMIT_LINE: Option<Governor> = Some(Governor::TransmitBit(16));

pub(crate) const TRANSMIT_FIELD: Option<Governor> = Some(Governor::TransmitBit(8));

pub(crate) const TRANSMIT_REST_OF_SCREEN: Option<Governor> = Some(Governor::TransmitBit(4));

pub(crate) const TRANSMIT_REST_OF_LINE: Option<Governor> = Some(Governor::TransmitBit(2));

pub(crate) const TRANSMIT_REST_OF_FIELD: Option<Governor> = Some(Governor::TransmitBit(1));

// of the two bytes of the format map.
pub(crate) const MODIFIED: Option<Governor> = Some(Governor::Format0Bit(64));

pub(crate) const REPEATING: Option<Governor> = Some(Governor::Format0Bit(16));

pub(crate) const PROTECTION_ON_OFF: Option<Governor> = Some(Governor::Format1Bit(64));

pub(crate) const PROTECTION: Option<Governor> = Some(Governor::Format1Bit(32));

// June has no TRANSMIT MODIFIED, and its bit is off.
fn own_format0(edition: Edition) -> u8
    ensures { result ≡ own_format0 edition }
{
    match edition {
        Edition::June => 144,
        Edition::September => 208,
    }
}

// The terminal's own maps.
pub fn own_maps(edition: Edition) -> Maps
    ensures { result ≡ own_maps edition }
{
    Maps {
        edit: 126,
        erase: 31,
        transmit: 63,
        format0: own_format0(edition),
        format1: 121,
    }
}

pub fn no_maps() -> Maps
    ensures { result ≡ no_maps }
{
    Maps {
        edit: 0,
        erase: 0,
        transmit: 0,
        format0: 0,
        format1: 0,
    }
}

// The maps after a facility command: those of its class are the ones received last.
#[tactic(auto, unfolding(rules::specs::Facility::receiving))]
pub fn receive(maps: Maps, facility: Facility, first: u8, second: u8) -> Maps
    ensures { result ≡ receiving maps facility first second }
{
    match facility {
        Facility::Editing => Maps {
            edit: first,
            ..maps
        },
        Facility::Erasing => Maps {
            erase: first,
            ..maps
        },
        Facility::Transmitting => Maps {
            transmit: first,
            ..maps
        },
        Facility::Formatting => Maps {
            format0: first,
            format1: second,
            ..maps
        },
    }
}

// Is the bit set in both?
fn in_both(weight: u8, received: u8, own: u8) -> bool
    ensures { result ≡ (bit weight received && bit weight own) }
{
    bit(weight, received) && bit(weight, own)
}

// Is what governs a subcommand agreed, these maps having been received?
#[tactic(auto, unfolding(rules::specs::Facility::agreed))]
pub fn is_agreed(edition: Edition, maps: Maps, governor: Option<Governor>) -> bool
    ensures { result ≡ agreed edition maps governor }
{
    let Some(bit) = governor else {
        return true;
    };
    let own = own_maps(edition);
    match bit {
        Governor::EditBit(weight) => in_both(weight, maps.edit, own.edit),
        Governor::EraseBit(weight) => in_both(weight, maps.erase, own.erase),
        Governor::TransmitBit(weight) => in_both(weight, maps.transmit, own.transmit),
        Governor::Format0Bit(weight) => in_both(weight, maps.format0, own.format0),
        Governor::Format1Bit(weight) => in_both(weight, maps.format1, own.format1),
    }
}
