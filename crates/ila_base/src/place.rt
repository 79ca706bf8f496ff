ghost use Rattle.std.specs.Prelude.{◌≡◌, ◌+◌, ◌^◌, ◌<◌, ◌≤◌, length, take};
ghost use Rattle.ila_base.specs.Places.{place_after, place_behind};

use crate::bytes::is_newline;

/// A place in a text: the line and the column of a byte, both counted from 1, the column in bytes.
/// 0:0 means that there is no place.
#[derive(Clone, Copy, Debug, PartialEq, Eq, PartialOrd, Ord)]
pub struct Place {
    pub line: u32,
    pub col: u32,
}

impl Place {
    /// The place of what has none.
    pub const NOWHERE: Place = Place { line: 0, col: 0 };

    /// The place of a text's first byte.
    pub const START: Place = Place { line: 1, col: 1 };

    /// The place behind the last byte of a text.
    pub fn behind(text: &[u8]) -> Place
        requires { length text.now + 1 < 2 ^ 32 }
        ensures { result ≡ place_behind text.now }
    {
        Place::START.further(text, 0, text.len())
    }

    /// The place behind the first `to` bytes of a text, where this one is behind the first `from`.
    pub fn further(self, text: &[u8], from: usize, to: usize) -> Place
        requires there { self ≡ place_behind (take from text.now) }
        requires on { from ≤ to }
        requires within { to ≤ length text.now }
        requires short { length text.now + 1 < 2 ^ 32 }
        ensures { result ≡ place_behind (take to text.now) }
    {
        let mut place = self;
        for at in from..to {
            place = place.behind_byte(text[at]);
        }
        place
    }

    // The place behind one more byte.
    fn behind_byte(self, byte: u8) -> Place
        requires line { self.line + 1 < 2 ^ 32 }
        requires col { self.col + 1 < 2 ^ 32 }
        ensures { result ≡ place_after self byte }
    {
        if is_newline(byte) {
            return Place {
                line: self.line + 1,
                col: 1,
            };
        }
        Place {
            line: self.line,
            col: self.col + 1,
        }
    }
}

/// A sized constant (IEEE 1364-2005, 3.5.1): its width in bits, from 1 to 128, and its value, an
/// unsigned number below two to the width.
#[derive(Clone, Copy, Debug, PartialEq, Eq)]
pub struct Word {
    pub width: u8,
    pub value: u128,
}
