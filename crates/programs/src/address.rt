//! The address of a module, as a person writes it.
ghost use Rattle.std.specs.Prelude.{◌≡◌};
ghost use Rattle.programs.specs.Addresses.{module_address};

use lines::check_address;
use words::decimal_value;

/// The address of a module that two digits write, 00 to 63.
pub fn module_address(text: &[u8]) -> Option<u8>
    ensures { result ≡ module_address text.now }
{
    if text.len() != 2 {
        return None;
    }
    let address = u8::try_from(decimal_value(text)?).ok()?;
    check_address(address).ok()?;
    Some(address)
}
