//! How od shows bytes.
ghost use Rattle.std.specs.Prelude.{◌≡◌, ◌<◌, ◌≤◌};

/// The digits of an address.
#[derive(Clone, Copy, Debug, PartialEq, Eq)]
pub enum Address {
    /// At least 7 octal digits.
    Octal,
    /// At least 7 decimal digits.
    Decimal,
    /// At least 6 hexadecimal digits.
    Hexadecimal,
    /// No address at all, and none at the end.
    Without,
}

/// How a number is written.
#[derive(Clone, Copy, Debug, PartialEq, Eq)]
pub enum NumForm {
    /// In decimal digits, read in two's complement.
    Signed,
    Octal,
    /// In decimal digits.
    Unsigned,
    Hexadecimal,
}

/// The bytes of a number.
#[derive(Clone, Copy, Debug, PartialEq, Eq)]
pub enum Size {
    One,
    Two,
    Four,
    Eight,
}

/// Which byte of a number is the first.
#[derive(Clone, Copy, Debug, PartialEq, Eq)]
pub enum Endian {
    /// The lowest.
    Little,
    /// The highest.
    Big,
}

/// What the bytes are shown as.
#[derive(Clone, Copy, Debug, PartialEq, Eq)]
pub enum Kind {
    /// Characters: a byte by its escape where it has one, itself where it prints, else in octal.
    Chars,
    /// Numbers. What is missing of the last one counts as zeros.
    Number { form: NumForm, size: Size },
}

impl Size {
    ghost use Rattle.bx_dump_columns.specs.Values.{by_size};
    ghost use Rattle.bx_dump_columns.specs.Values.{size_of};

    /// How many bytes these are.
    #[inline(always)]
    pub(crate) fn len(self) -> usize
        ensures value { result ≡ size_of self }
        ensures some { 0 < result }
        ensures most { result ≤ 8 }
    {
        match self {
            Size::One => 1,
            Size::Two => 2,
            Size::Four => 4,
            Size::Eight => 8,
        }
    }

    /// One of four numbers.
    #[inline(always)]
    fn pick(self, one: usize, two: usize, four: usize, eight: usize) -> usize
        ensures { result ≡ by_size self one two four eight }
    {
        match self {
            Size::One => one,
            Size::Two => two,
            Size::Four => four,
            Size::Eight => eight,
        }
    }
}

impl Kind {
    ghost use Rattle.bx_dump_columns.specs.Values.{width_of};
    ghost use Rattle.bx_dump_columns.specs.Values.{field_width};

    /// The bytes of a value.
    #[inline(always)]
    pub fn width(self) -> usize
        ensures value { result ≡ width_of self }
        ensures some { 0 < result }
        ensures most { result ≤ 8 }
    {
        match self {
            Kind::Chars => 1,
            Kind::Number { size, .. } => size.len(),
        }
    }

    /// The characters of a value.
    #[inline(always)]
    pub fn field(self) -> usize
        ensures value { result ≡ field_width self }
        ensures most { result ≤ 22 }
    {
        match self {
            Kind::Chars => 3,
            Kind::Number { form, size } => match form {
                NumForm::Signed => size.pick(4, 6, 11, 20),
                NumForm::Octal => size.pick(3, 6, 11, 22),
                NumForm::Unsigned => size.pick(3, 5, 10, 20),
                NumForm::Hexadecimal => size.pick(2, 4, 8, 16),
            },
        }
    }
}
