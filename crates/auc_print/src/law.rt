//! What no single call shows.

ghost use Rattle.auc_print.specs.OneText.{OneTranscript};

/// A text determines what is told of its transcript, in a brief and in a full print, if no two subscribers have the same
/// identity. Events of sessions are told without their subscribers and options, and without the bytes, vectors and keys of
/// the full print; 5G authentications are told without K_SEAF, and sessions of EAP-SIM without their packets and keys.
pub fn each_text_has_one_transcript()
    ensures { OneTranscript }
{}
