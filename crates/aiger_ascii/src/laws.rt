//! What ASCII texts stand for, as one contract.
ghost use Rattle.aiger_grammar.specs.AsciiTexts.{HasOneModel, TextHasNoFault, IsTextOrFaulty, HasOneFault};

/// Does nothing. Its contract is the law of ASCII texts: any bytes stand for a model exactly where they have no fault,
/// for one model at most, and have one fault at most.
pub fn ascii_laws()
    ensures one_model { HasOneModel }
    ensures no_fault { TextHasNoFault }
    ensures text_or_fault { IsTextOrFaulty }
    ensures one_fault { HasOneFault }
{}
