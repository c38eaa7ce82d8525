//! What a service says of itself.
ghost use Rattle.std.specs.Prelude.{◌≡◌};
ghost use Rattle.ship_service.specs.Listening.{closed_line};

/// The line that says that all has ended.
pub(crate) fn closed_line() -> &'static [u8]
    ensures { result.now ≡ closed_line }
{
    b"closed\n"
}
