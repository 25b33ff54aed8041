//! Laws of the format, over its definitions alone.
ghost use Rattle.bx_read.specs.FaultTable.{FaultIsOfLine};
ghost use Rattle.bx_read.specs.Grammar.{LineHasForm, TextHasForm};
ghost use Rattle.bx_read.specs.Laws.{LineIsUnique, TextIsUnique, PiecesAreFew, DumpLineReadsBack, WrittenLineReadsBack};
ghost use Rattle.bx_read.specs.PairGrammar.{PairsHaveForm, PlainHasForm};
ghost use Rattle.bx_read.specs.PlainFaults.{FaultIsOfPlain};

/// No line gives two different pairs of an address and bytes.
pub fn line_is_unique()
    ensures { LineIsUnique }
{}

/// No text gives two different lists of pieces.
pub fn text_is_unique()
    ensures { TextIsUnique }
{}

/// A line is read exactly where it is in the grammar, and what is read of it is its address and the text of its pairs.
pub fn line_has_form()
    ensures { LineHasForm }
{}

/// A text is read exactly where its lines are in the grammar, and what is read of it are their pieces.
pub fn text_has_form()
    ensures { TextHasForm }
{}

/// A line that isn't read has the fault that is answered: that of the first part that isn't as it has to be.
pub fn fault_is_of_line()
    ensures { FaultIsOfLine }
{}

/// The pieces of a text are no more than its lines, and their bytes together no more than half of its bytes.
pub fn pieces_are_few()
    ensures { PiecesAreFew }
{}

/// A line of an xxd dump, for any columns and groups, reads back as its address and its bytes. Its only newline is the one
/// that ends it.
pub fn dump_line_reads_back()
    ensures { DumpLineReadsBack }
{}

/// A default line of 1 to 16 bytes at an address below 2^62, as all of an image are, reads back as its address and its
/// bytes. It has at most 75 bytes, all of them printing ones, and no newline; no front of it begins with an `s`.
pub fn written_line_reads_back()
    ensures { WrittenLineReadsBack }
{}

/// A text reads as the bytes of a line exactly where it is a pair of digits for each of them, at least one, with nothing or one
/// space between two.
pub fn pairs_have_form()
    ensures { PairsHaveForm }
{}

/// A plain text reads as bytes exactly where it is two digits for each of them, with white space before, between and behind.
pub fn plain_has_form()
    ensures { PlainHasForm }
{}

/// A plain text that doesn't read as bytes has the fault that is answered: a bad pair in the line of its first byte that is neither a
/// digit nor white space, or where there is none an odd number of digits, in the line of the last one.
pub fn fault_is_of_plain()
    ensures { FaultIsOfPlain }
{}
