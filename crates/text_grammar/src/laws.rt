//! The laws of numerals, pieces and lines, as one contract.
ghost use Rattle.text_grammar.specs.Laws.{ReadsNumerals, HasOneNumeral, JoinsPieces, PiecesLackByte, CutsJoined, CutsFirst, CutsNone, FirstLine, LastLine, NoLine, LinesLackLineFeed, ReadsWrittenLines, LinesAreText};

/// Does nothing. Its contract is the laws: what is read is what stands there, and what is written is
/// read again.
pub fn text_laws()
    ensures numerals_read { ReadsNumerals }
    ensures one_numeral { HasOneNumeral }
    ensures pieces_joined { JoinsPieces }
    ensures pieces_lack_byte { PiecesLackByte }
    ensures joined_cut { CutsJoined }
    ensures first_piece { CutsFirst }
    ensures one_piece { CutsNone }
    ensures first_line { FirstLine }
    ensures last_line { LastLine }
    ensures no_line { NoLine }
    ensures lines_lack_line_feed { LinesLackLineFeed }
    ensures written_read { ReadsWrittenLines }
    ensures lines_are_text { LinesAreText }
{}
