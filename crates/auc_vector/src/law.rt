//! What an AUTN says of its vector's number, and an AUTS of the SQN in it.

ghost use Rattle.auc_vector.specs.Vector.{AutnCarriesTheSqn, NumbersHaveDifferentSqns, AutnHasTheMac};
ghost use Rattle.auc_vector.specs.Auts.{EachAutsIsReadBack};

/// The SQN that a USIM finds in AUTN is that of the vector's number, and vectors of different numbers carry
/// different SQNs, whatever their RANDs.
pub fn each_autn_carries_the_sqn_of_its_number()
    ensures carried { AutnCarriesTheSqn }
    ensures different { NumbersHaveDifferentSqns }
{}

/// A USIM with the same secret finds the MAC of AUTN right: it is f1 of the SQN and the AMF that it finds there.
pub fn each_autn_has_the_mac_of_its_sqn()
    ensures { AutnHasTheMac }
{}

/// The home network reads the SEQ of SQN_MS in the AUTS that a USIM with the same secret makes.
pub fn each_auts_is_read_back()
    ensures { EachAutsIsReadBack }
{}
