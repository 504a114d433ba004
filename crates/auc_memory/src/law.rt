//! What no single call shows.

ghost use Rattle.auc_memory.specs.Identity.{EachIdentityIsReadBack, EachTextIsWrittenBack};

/// Each identity is read back from its text, so different identities have different texts.
pub fn each_identity_is_read_back()
    ensures { EachIdentityIsReadBack }
{}

/// Each text of an identity is written back, so different texts are different identities.
pub fn each_text_is_written_back()
    ensures { EachTextIsWrittenBack }
{}
