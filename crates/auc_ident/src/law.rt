//! Laws of identities that no single call shows.

ghost use Rattle.auc_ident.specs.Name.{ExactlyNamesAreKept};
ghost use Rattle.auc_ident.specs.Names.{EachNameIsResolved, EqualNamesAreOne};
ghost use Rattle.auc_ident.specs.Permanent.{EachPermanentIsReadBack};

use auc_aes::decryption_undoes_encryption;
use auc_memory::{each_identity_is_read_back, each_text_is_written_back};

/// A text is the permanent identity of an IMSI exactly if [`crate::permanent_in`] reads the IMSI from it. So different
/// IMSIs have different permanent identities.
pub fn permanent_identities_are_read_back()
    ensures { EachPermanentIsReadBack }
{
    each_identity_is_read_back();
    each_text_is_written_back();
}

/// A subscriber and an ordinal are found for a text exactly if it is their name, with or without a realm.
pub fn exactly_the_names_are_resolved()
    ensures { EachNameIsResolved }
{
    decryption_undoes_encryption();
}

/// Names that are equal are of one kind, method, subscriber and ordinal.
pub fn each_name_is_given_once()
    ensures { EqualNamesAreOne }
{
    decryption_undoes_encryption();
}

/// A device keeps a name if and only if it has 1 to 255 bytes without `@`, whether or not the server gave it with a realm.
#[tactic(auto, using(crate::proofs::KeptLemmas::exactly_names_are_kept))]
pub fn exactly_names_are_kept()
    ensures { ExactlyNamesAreKept }
{}
