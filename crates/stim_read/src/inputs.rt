ghost use Rattle.std.specs.Prelude.{◌≡◌};
ghost use Rattle.stim_read.specs.Stimulus.{digits_of, padding_of};

use ila_base::Name;

/// A data input of a design: its name, and its width in bits, from 1 to 1,048,576.
#[derive(Debug, Drop)]
pub struct DataInput {
    pub name: Name,
    pub width: u32,
}

/// Where the bits of an input stand in a row: the place of its first, highest bit, counted from 0,
/// and how many they are.
#[derive(Clone, Copy, Debug, PartialEq, Eq)]
pub struct Field {
    pub place: usize,
    pub width: u32,
}

impl Field {
    /// How many hexadecimal digits its word has.
    pub(crate) fn digits(self) -> usize
        ensures { result ≡ digits_of self.width }
    {
        (self.width as usize + 3) / 4
    }

    /// How many bits of its word stand above its value.
    pub(crate) fn padding(self) -> usize
        ensures { result ≡ padding_of self.width }
    {
        4 * self.digits() - self.width as usize
    }
}
