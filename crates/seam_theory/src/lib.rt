//! Lists of pieces that are joined at a seam. Definitions and laws alone.
#![tactic(auto)]

ghost use Rattle.seam_theory.specs.Moves.{AnyOrderLaw, SeamGrownLaw, SeamWalkedLaw};
ghost use Rattle.seam_theory.specs.Same.{MadeSameLaw, PiecesSameLaw, StandsSameLaw};
ghost use Rattle.seam_theory.specs.Seams.{SeamEndLaw, SeamMeetLaw, SeamMoveLaw, SeamPutLaw, SeamStartLaw};

/// Pieces are pieces in each store that has the nodes of their walk.
pub fn same_laws()
    ensures made { MadeSameLaw }
    ensures stands { StandsSameLaw }
    ensures pieces { PiecesSameLaw }
{}

/// The seam from the two lists on: the left list's last piece moves on, meets the next piece, gets it put on, and in the end
/// all are pieces of the tokens of both lists.
pub fn seam_laws()
    ensures start { SeamStartLaw }
    ensures move_on { SeamMoveLaw }
    ensures meet { SeamMeetLaw }
    ensures put { SeamPutLaw }
    ensures end { SeamEndLaw }
{}

/// The piece at the seam moves on as a piece that grows, whatever stands before and behind it.
pub fn move_laws()
    ensures any_order { AnyOrderLaw }
    ensures walked { SeamWalkedLaw }
    ensures grown { SeamGrownLaw }
{}
