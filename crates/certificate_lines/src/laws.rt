//! The laws of the definitions. Each call does nothing; its contract is the law.
ghost use Rattle.certificate_lines.specs.Laws.{ReadsWordLines, ReadsUses, ReadsClauses, OneWordLine, OneListOfUses, OneClause, WordsAreNoUses, WordsAreNoClauses};

/// What is read of a line is what it spells, and every line that is spelled is read.
pub fn lines_are_read_as_spelled()
    ensures word_lines { ReadsWordLines }
    ensures uses { ReadsUses }
    ensures clauses { ReadsClauses }
{}

/// A line that begins with a word spells one thing, and is no line of uses or of a clause. A line of uses spells the
/// same uses in both versions, and a line of a clause spells one clause; `2 0` is a line of either kind.
pub fn lines_spell_one_thing()
    ensures word_lines { OneWordLine }
    ensures uses { OneListOfUses }
    ensures clauses { OneClause }
    ensures words_no_uses { WordsAreNoUses }
    ensures words_no_clauses { WordsAreNoClauses }
{}
