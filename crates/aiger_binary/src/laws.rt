//! What binary texts stand for, as one contract.
ghost use Rattle.aiger_grammar.specs.BinaryTexts.{BinaryHasOneModel, BinaryHasNoFault, IsBinaryOrFaulty, BinaryHasOneFault};
ghost use Rattle.aiger_grammar.specs.Ordered.{HasBinaryTextWhereOrdered, WritesBinary};

/// Does nothing. Its contract is the law of binary texts: any bytes stand for a model exactly where they have no fault,
/// for one model at most, and have one fault at most; a model has a binary text, of whatever length, exactly where it is
/// ordered, and then what is written of it is one.
pub fn binary_laws()
    ensures one_model { BinaryHasOneModel }
    ensures no_fault { BinaryHasNoFault }
    ensures text_or_fault { IsBinaryOrFaulty }
    ensures one_fault { BinaryHasOneFault }
    ensures ordered { HasBinaryTextWhereOrdered }
    ensures written { WritesBinary }
{}
