//! Lists of pieces: joined, cut, with one piece more, and in a larger store. Definitions and laws alone.
#![tactic(auto)]

ghost use Rattle.list_laws.specs.Laws.{FloorsThenLaw, PiecePushedLaw, PiecesMoreLaw, PiecesSplitLaw, PiecesThenLaw};

/// Lists of pieces are joined and cut, get one piece more, and stay pieces in a larger store.
pub fn list_laws()
    ensures then { PiecesThenLaw }
    ensures split { PiecesSplitLaw }
    ensures pushed { PiecePushedLaw }
    ensures more { PiecesMoreLaw }
    ensures floors { FloorsThenLaw }
{}
