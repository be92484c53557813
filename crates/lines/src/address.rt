//! The addresses of the modules on the line.
ghost use Rattle.std.specs.Prelude.{◌≡◌};
ghost use Rattle.lines.specs.Addresses.{address_answer};

use faults::Fault;

const LAST_ADDRESS: u8 = 63;

/// Refuses what is no module's address: a number above 63.
pub fn check_address(address: u8) -> Result<(), Fault>
    ensures { result ≡ address_answer address }
{
    if address > LAST_ADDRESS {
        return Err(Fault::wrong_address());
    }
    Ok(())
}
