//! What the definitions say, in other words.
ghost use Rattle.bx_text.specs.NumberGrammar.{NumberHasForm};
ghost use Rattle.bx_text.specs.SizeGrammar.{SizeHasForm};

/// Says that a text reads as a number exactly where it is decimal, hexadecimal behind `0x` or octal behind `0`, at least this
/// many digits of that base and all that stand in front, then nothing or a suffix of its style, and that the number is theirs.
pub fn number_has_form()
    ensures { NumberHasForm }
{}

/// Says that a text reads as a size exactly where it has the form of one of its style and isn't too large: a number whose base
/// its first characters say, or for [`SizeStyle::Product`](crate::SizeStyle) decimal numbers with suffixes, `x` between two,
/// as their product. It is too large exactly where it has the form of a larger one, and bad where it has the form of none.
pub fn size_has_form()
    ensures { SizeHasForm }
{}
