//! Laws of the operators' definitions. Nothing here runs.

ghost use Rattle.wasm_num.specs.Laws.{BinaryFits, UnaryFits, CompareFits, ConvertFits, ZeroTraps, OverflowTraps, NoOtherTraps, DividesUnsigned, DividesSigned, WordOfReading};

/// Each result is a word of its type, where the operands are words.
pub fn results_are_words()
    ensures binary { BinaryFits }
    ensures unary { UnaryFits }
    ensures compare { CompareFits }
    ensures convert { ConvertFits }
    ensures reading { WordOfReading }
{}

/// To divide by zero is a trap, so is the signed quotient of the least number by -1, and no other.
pub fn traps()
    ensures zero { ZeroTraps }
    ensures overflow { OverflowTraps }
    ensures no_other { NoOtherTraps }
{}

/// A quotient times its divisor, and the remainder, are the dividend, by either reading.
pub fn quotients()
    ensures unsigned { DividesUnsigned }
    ensures signed { DividesSigned }
{}
