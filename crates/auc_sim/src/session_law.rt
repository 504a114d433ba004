//! Laws of triplets and sessions.

ghost use Rattle.auc_sim.specs.SessionLaws.{EachCardHasTheTripletOfItsVector, EachPlainSessionSucceeds, EachSessionAgrees, EachSessionHasOneRun};

/// The USIM of a subscriber makes of the RAND of a vector the triplet of that vector.
pub fn each_card_has_the_triplet_of_its_vector()
    ensures { EachCardHasTheTripletOfItsVector }
{}

/// If both ends have one secret, they have equal keys whenever both end in Success, whichever packets are delivered.
pub fn each_session_agrees()
    ensures { EachSessionAgrees }
{}

/// If both ends have one secret and the RANDs differ, both end in Success when each packet is delivered once to the other end.
pub fn each_plain_session_succeeds()
    ensures { EachPlainSessionSucceeds }
{}

/// A session runs in one way: its inputs and its schedule determine what is said of it.
pub fn each_session_has_one_run()
    ensures { EachSessionHasOneRun }
{}
