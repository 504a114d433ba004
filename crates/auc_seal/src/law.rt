//! Laws that no single call shows.

ghost use Rattle.auc_seal.specs.Laws.{OnePlace, OneDecryption, OneOpening, OpensAsDecrypts, EncryptedIsDecrypted, EncryptedIsWritable};

/// The value of AT_MAC has one place in a packet, or none.
pub fn values_of_the_mac_have_one_place()
    ensures { OnePlace }
{}

/// The decryption of a list has one answer, unless memory runs out.
pub fn decryption_has_one_answer()
    ensures { OneDecryption }
{}

/// Opening a list has one answer.
pub fn opening_has_one_answer()
    ensures { OneOpening }
{}

/// A list is opened exactly if it decrypts, to the bytes of the same attributes, and is refused for the same reason.
pub fn lists_open_as_they_decrypt()
    ensures { OpensAsDecrypts }
{}

/// Under any key and initialisation vector, decryption gives back the attributes that were encrypted and
/// pushed.
pub fn encrypted_attributes_are_decrypted()
    ensures { EncryptedIsDecrypted }
{}

/// A list that can be written can still be written after encrypted attributes were pushed; these take 24
/// bytes more than the attributes with their padding.
pub fn encrypted_attributes_may_be_written()
    ensures { EncryptedIsWritable }
{}
