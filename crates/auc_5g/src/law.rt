//! Both ends have the same values.

ghost use Rattle.auc_5g.specs.Agree.{EachAcceptingDeviceAgrees, EachDeviceAgreesWithItsHome};

/// A device that has RES, CK, IK and SQN XOR AK of a vector, and the home network's name of the serving network, has
/// the home network's values.
pub fn each_device_agrees_with_its_home()
    ensures { EachDeviceAgreesWithItsHome }
{}

/// A device has the home network's values, if its USIM has the secret and accepted the vector of a number, and if it has
/// the home network's name of the serving network.
pub fn each_accepting_device_agrees()
    ensures { EachAcceptingDeviceAgrees }
{}
