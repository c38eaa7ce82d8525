//! Which helpers there are.
ghost use Rattle.std.specs.Prelude.{◌≡◌};
ghost use Rattle.helpers.specs.Helpers.{helper_of, closes_scopes};

/// A helper function. Each gives a number in R0 and changes no other register.
#[derive(Clone, Copy, Drop, Debug, PartialEq, Eq)]
pub enum Helper {
    /// How many bytes the object has whose number is R1.
    Length,
    /// The number of the machine.
    Number,
    /// Keeps R1 as an emitted value, while there is room.
    Emit,
    /// Closes all scopes of the machine.
    CloseScopes,
}

impl Helper {
    /// The helper of that number, if there is one: 1 to 4 in the order above. RFC 9669, section 4.3.1, leaves the numbers
    /// open.
    pub fn from_number(id: i32) -> Option<Helper>
        ensures { result ≡ helper_of id }
    {
        match id {
            1 => Some(Helper::Length),
            2 => Some(Helper::Number),
            3 => Some(Helper::Emit),
            4 => Some(Helper::CloseScopes),
            _ => None,
        }
    }

    /// Whether all scopes of the machine close with it.
    pub fn closes_scopes(self) -> bool
        ensures { result ≡ closes_scopes self }
    {
        matches!(self, Helper::CloseScopes)
    }
}
