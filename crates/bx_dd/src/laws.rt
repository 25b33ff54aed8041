//! What the definitions say, in other words.
ghost use Rattle.bx_dd.specs.Behind.{RestCopiesBehind};
ghost use Rattle.bx_dd.specs.Laws.{FirstFaultIsFirst, SwapTurnsLowestBit};
ghost use Rattle.bx_dd.specs.OperandGrammar.{OperandHasForm, OperandsHaveForm, WordsAreAskedFor};

use std::alloc::Allocator;

/// Says that each byte of a swapped block is the one at its place with the lowest bit turned, where the block has that place.
pub fn swap_turns_lowest_bit()
    ensures { SwapTurnsLowestBit }
{}

/// Says that the fault of the operands one by one is that of a word, and each word in front of it is sound.
pub fn first_fault_is_first()
    ensures { FirstFaultIsFirst }
{}

/// Says that a word behind others has no fault exactly where it is a known name, `=` and a value of its kind, and the name wasn't
/// given before; and that it has a fault exactly where the fault is the first of these that doesn't hold.
pub fn operand_has_form()
    ensures { OperandHasForm }
{}

/// Says that words have no fault one by one exactly where each is sound behind those before it, and a fault exactly where it is
/// that of the first word that isn't.
pub fn operands_have_form()
    ensures { OperandsHaveForm }
{}

/// Says that what is taken of the words is what they say: the value of the first operand of a name, its number, and the
/// conversions among the words of `conv`.
pub fn words_are_asked_for()
    ensures { WordsAreAskedFor }
{}

/// Says that what the rest of a plan makes of the bytes behind some others, and counts, is what the whole plan, which skips
/// those, makes of them all.
pub fn rest_copies_behind<A: Allocator>()
    ensures { RestCopiesBehind A }
{}
