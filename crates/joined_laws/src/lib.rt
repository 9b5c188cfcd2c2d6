//! Two pieces that are joined: the joined piece is well made, and stands for the tokens of both. Laws alone.
#![tactic(auto)]

ghost use Rattle.joined_laws.specs.Joining.{FloorsPartLaw, FloorsStartLaw, FloorsWholeLaw, MadeLaw, NodesPartLaw, NodesStartLaw, NodesWholeLaw};
ghost use Rattle.joined_laws.specs.Joint.{JoinEndLaw, JoinPartLaw, JoinStartLaw, JoinWholeLaw};
ghost use Rattle.joined_laws.specs.Meeting.{LandsLaw, MeetLaw};

/// What the left piece leaves are contexts of the right one, and where all floors are put on, the states over the entries
/// are alive starts of the right piece.
pub fn meeting_laws()
    ensures meet { MeetLaw }
    ensures lands { LandsLaw }
{}

/// The joined piece's nodes, walks, floors and maps, from the left piece over each floor of the right one to its entries: at
/// the end it is well made.
pub fn joining_laws()
    ensures nodes_start { NodesStartLaw }
    ensures floors_start { FloorsStartLaw }
    ensures nodes_whole { NodesWholeLaw }
    ensures floors_whole { FloorsWholeLaw }
    ensures nodes_part { NodesPartLaw }
    ensures floors_part { FloorsPartLaw }
    ensures made { MadeLaw }
{}

/// The whole of a join of two pieces: at each step all that holds goes on, and in the end the joined piece is well made, stands
/// for the tokens of both, and each node is used once.
pub fn joint_laws()
    ensures start { JoinStartLaw }
    ensures whole { JoinWholeLaw }
    ensures part { JoinPartLaw }
    ensures end { JoinEndLaw }
{}
