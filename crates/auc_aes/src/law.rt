//! Encryption and decryption are inverse to each other.

ghost use Rattle.auc_aes.specs.Law.{DecryptionUndoesEncryption, EncryptionUndoesDecryption, CbcDecryptionUndoesEncryption, CbcEncryptionUndoesDecryption};

/// Under any key, decryption undoes encryption, both of one block and of whole blocks by CBC with the same
/// initialization vector.
pub fn decryption_undoes_encryption()
    ensures block { DecryptionUndoesEncryption }
    ensures cbc { CbcDecryptionUndoesEncryption }
{}

/// Under any key, encryption undoes decryption, in both cases.
pub fn encryption_undoes_decryption()
    ensures block { EncryptionUndoesDecryption }
    ensures cbc { CbcEncryptionUndoesDecryption }
{}
