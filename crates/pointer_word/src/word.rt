//! The word of an object in 64 bits, and its calls. Each is a few shifts and masks, so that a step can afford them.
ghost use Rattle.std.specs.Prelude.{◌≡◌, ◌+◌, ◌-◌, ◌<◌, ◌%◌, ◌==◌, not, nat_eq, None, IfSome};
ghost use Rattle.pointer_word.specs.Words.{WordRecord, HasFields, place_number, where_it_applies, word_number, new_word, is_local, opened, closed, turn_taken};
ghost use Rattle.pointer_word.specs.Words.{turn_given, cooled, leaving, gone_far, returning, home};
ghost use Rattle.pointer_word.specs.Bits.{cold_bits, place_at};

use std::marker::Model;

/// Where an object is.
#[derive(Clone, Copy, Drop, Debug, PartialEq, Eq)]
pub enum WordPlace {
    /// It may be reached.
    Local,
    /// It is on its way to the far store, or back.
    Moving,
    /// The far store has it.
    Far,
}

/// The bits of a word's number that say where the object is. If it is here, they are zero.
pub const PLACE: u64 = 0x3;

/// One place farther, added to a word's number: from here to moving, and from moving to far.
pub const FARTHER: u64 = 0x1;

/// The bit of a word's number that says that an actor has the turn.
pub const TURN: u64 = 0x4;

/// The bit of a word's number that says that the object was used lately.
pub const HOT: u64 = 0x8;

/// One scope more, added to a word's number.
pub const SCOPE: u64 = 0x100;

/// One stamp more, added to a word's number. The number divided by it is the stamp, and the rest holds all other fields.
pub const STAMP: u64 = 0x1_0000;

/// The greatest stamp.
pub const STAMP_LIMIT: u64 = 0xffff_ffff_ffff;

/// An object's word, kept in 64 bits: bits 0 and 1 are its place, bit 2 says that an actor has its turn, bit 3 that it
/// was used lately, bits 4 to 7 are zero, bits 8 to 15 count the scopes that are open on it, bits 16 to 63 are its stamp.
/// The layout is this project's choice.
#[derive(Drop)]
pub struct Word {
    bits: u64,
}

impl Model for Word {
    ghost use Rattle.pointer_word.specs.Words.{WordRecord};
    ghost use Rattle.pointer_word.specs.Bits.{fields_of, IsWord};

    ghost Value = { WordRecord };

    ghost view = { λ w. fields_of w.bits };

    ghost invariant = { λ w. IsWord w.bits };
}

impl Word {
    /// The word of an object that is here, and that no one holds.
    pub fn new() -> Self
        ensures { result ≡ new_word }
    {
        Word { bits: 0 }
    }

    /// The word of this number. There is none where the place would be 3, or one of bits 4 to 7 is set.
    pub fn of(number: u64) -> Option<Self>
        ensures some { IfSome result (λ w. word_number w ≡ number) }
        ensures fields { IfSome result (λ w. HasFields w) }
        ensures none { result ≡ None → (w : WordRecord) → HasFields w → word_number w ≡ number → ⊥ }
    {
        if number & PLACE == 3 || number >> 4 & 0xf != 0 {
            None
        } else {
            Some(Word { bits: number })
        }
    }

    /// The word's number.
    pub fn number(&self) -> u64
        ensures { result ≡ word_number self.now }
    {
        self.bits
    }

    /// Where the object is.
    pub fn place(&self) -> WordPlace
        ensures { result ≡ self.now.place }
    {
        match self.bits & PLACE {
            0 => WordPlace::Local,
            1 => WordPlace::Moving,
            _ => WordPlace::Far,
        }
    }

    /// Whether the object is here.
    #[inline(always)]
    pub fn is_local(&self) -> bool
        ensures { result ≡ is_local self.now.place }
    {
        self.bits & PLACE == 0
    }

    /// How many scopes are open on the object.
    pub fn scopes(&self) -> u8
        ensures { result ≡ self.now.count }
    {
        (self.bits / SCOPE & 0xff) as u8
    }

    /// The stamp of the last entry of the object's history; 0 where it has none.
    pub fn stamp(&self) -> u64
        ensures { result ≡ self.now.stamp }
    {
        self.bits / STAMP
    }

    /// Whether an actor has the object's turn.
    pub fn has_turn(&self) -> bool
        ensures { result ≡ self.now.turn }
    {
        self.bits / TURN % 2 == 1
    }

    /// One more scope, where there are fewer than 255.
    pub fn opened(&self) -> Option<Self>
        ensures { result ≡ opened self.now }
    {
        if self.scopes() < 255 {
            Some(Word {
                bits: self.bits + SCOPE,
            })
        } else {
            None
        }
    }

    /// One scope fewer, where there is one.
    pub fn closed(&self) -> Option<Self>
        ensures { result ≡ closed self.now }
    {
        if self.scopes() > 0 {
            Some(Word {
                bits: self.bits - SCOPE,
            })
        } else {
            None
        }
    }

    /// Opens one more scope. Whoever knows that there is room needs no test.
    #[inline(always)]
    pub fn open_scope(&mut self)
        requires { self.old.count < 255 }
        ensures { self.new ≡ record self.old { count = self.old.count + 1 } }
    {
        self.bits += SCOPE;
    }

    /// Closes a scope. Whoever knows that one is open needs no test.
    #[inline(always)]
    pub fn close_scope(&mut self)
        requires { 0 < self.old.count }
        ensures { self.new ≡ record self.old { count = self.old.count - 1 } }
    {
        self.bits -= SCOPE;
    }

    /// The turn is taken, where the object is here and nobody has it. The object is hot then.
    pub fn taken(&self) -> Option<Self>
        ensures { result ≡ turn_taken self.now }
    {
        if self.bits & PLACE == 0 && !self.has_turn() {
            Some(Word {
                bits: cold(self.bits) + TURN + HOT,
            })
        } else {
            None
        }
    }

    /// The turn is given back with a stamp, which is at least the old one and at most [`STAMP_LIMIT`].
    pub fn given(&self, stamp: u64) -> Option<Self>
        ensures { result ≡ turn_given self.now stamp }
    {
        if self.has_turn() && stamp >= self.stamp() && stamp <= STAMP_LIMIT {
            Some(Word {
                bits: self.bits - TURN + (stamp - self.stamp()) * STAMP,
            })
        } else {
            None
        }
    }

    /// The object is not hot.
    pub fn cooled(&self) -> Self
        ensures { result ≡ cooled self.now }
    {
        Word {
            bits: cold(self.bits),
        }
    }

    /// The object leaves, where it is here and neither a scope is open on it nor its turn taken. It is not hot then.
    pub fn leaving(&self) -> Option<Self>
        ensures { result ≡ leaving self.now }
    {
        if self.bits & PLACE == 0 && self.scopes() == 0 && !self.has_turn() {
            Some(Word {
                bits: cold(self.bits) + FARTHER,
            })
        } else {
            None
        }
    }

    /// The object is in the place of this number, where it was in that one.
    #[inline(always)]
    fn placed(&self, from: u64, to: u64) -> Option<Self>
        requires { (from < 3) × (to < 3) }
        ensures { result ≡ where_it_applies (nat_eq (place_number self.now.place) from) (record self.now { place = place_at to }) }
    {
        if self.bits & PLACE == from {
            Some(Word {
                bits: self.bits - from + to,
            })
        } else {
            None
        }
    }

    /// The object that was moving is far.
    pub fn left(&self) -> Option<Self>
        ensures { result ≡ gone_far self.now }
    {
        self.placed(1, 2)
    }

    /// The object that was far is moving.
    pub fn returning(&self) -> Option<Self>
        ensures { result ≡ returning self.now }
    {
        self.placed(2, 1)
    }

    /// The object that was moving is here.
    pub fn home(&self) -> Option<Self>
        ensures { result ≡ home self.now }
    {
        self.placed(1, 0)
    }
}

/// Whether a word of this number says that its object isn't here.
pub fn is_away(number: u64) -> bool
    ensures { result ≡ not (number % 4 == 0) }
{
    number & PLACE != 0
}

/// The bits, without the mark that the object is hot.
#[inline(always)]
fn cold(bits: u64) -> u64
    ensures { result ≡ cold_bits bits }
{
    bits - HOT * (bits >> 3 & 1)
}
