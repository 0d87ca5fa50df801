//! The laws of frames: what they mean, and what takes room. Each call does nothing; its contract is the laws.
ghost use Rattle.ic3_frames.specs.Meaning.{FramesGrow, LemmasRestrict, AboveStay, NumberStays, OpenedStay};
ghost use Rattle.ic3_frames.specs.Room.{LemmasTakeRoom, LemmasMakeNoRoom, FramesTakeRoom, DifferingAreFew, FirstRoom};

/// What a frame allows, the next one allows. A lemma changes neither the frames above nor how many there are. A lemma that
/// is put into a frame restricts it and those below, and a frame that is opened restricts none.
pub fn frames_grow()
    ensures grow { FramesGrow }
    ensures restrict { LemmasRestrict }
    ensures above { AboveStay }
    ensures number { NumberStays }
    ensures opened { OpenedStay }
{}

/// What takes room: a lemma that excludes a state which its frame allowed, and a frame that is opened while there are
/// at most 2^n + 1. There are no more where no two neighbours allow the same states. Lemmas that are put on make none.
/// Before any frame there is room of (2^n + 2)(2^n + 1).
pub fn steps_take_room()
    ensures lemmas { LemmasTakeRoom }
    ensures pushes { LemmasMakeNoRoom }
    ensures frames { FramesTakeRoom }
    ensures few { DifferingAreFew }
    ensures first { FirstRoom }
{}
