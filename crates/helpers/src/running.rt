//! What each helper does.
ghost use Rattle.std.specs.Prelude.{◌≡◌};
ghost use Rattle.helpers.specs.Helpers.{helper_value, side_after};

use crate::helper::Helper;
use crate::side::Side;

/// Runs a helper: the number is R0 afterwards. `r1` is R1, and `length` is how many bytes the object of that number has,
/// which `Helper::Length` alone reads. Takes no memory. Closing the scopes is left to the caller.
pub fn run(helper: Helper, r1: u64, length: u64, side: &mut Side) -> u64
    ensures value { result ≡ helper_value helper length side.old }
    ensures side { side.new ≡ side_after helper r1 side.old }
{
    match helper {
        Helper::Length => length,
        Helper::Number => side.number() as u64,
        Helper::Emit => side.emit(r1),
        Helper::CloseScopes => 0,
    }
}
