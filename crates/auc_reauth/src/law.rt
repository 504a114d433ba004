//! Laws over every list of calls.

ghost use Rattle.auc_reauth.specs.Laws.{AcceptedCountersRise, ContextsAreTakenOnce, IdentitiesAreTakenOnce};
ghost use Rattle.auc_reauth.specs.Machine.{EachCounterOnce, EachIdentityOnce};

/// Whatever the calls on a server's store were, and whatever contexts are counted: no more of them were taken than the
/// store had and the calls put. So a context that was put once is taken once.
#[tactic(auto, using(crate::proofs::ServerLemmas::contexts_are_taken_once))]
pub fn contexts_are_taken_once()
    ensures { ContextsAreTakenOnce }
{}

/// Whatever the calls on a server's store were: if the store's contexts and those that were put have different
/// identities, so have those that were taken. So no identity is resumed twice.
#[tactic(auto, using(crate::proofs::IdentityLemmas::identities_are_taken_once))]
pub fn identities_are_taken_once()
    ensures { IdentitiesAreTakenOnce }
{}

/// As long as no call on a device's store sets a context of the method that opens a counter, the counters that the method
/// accepts rise. So none is accepted twice.
#[tactic(auto, using(crate::proofs::DeviceLemmas::accepted_counters_rise))]
pub fn accepted_counters_rise()
    ensures { AcceptedCountersRise }
{}

/// Whatever moves the sessions of a subscriber or of a device make side by side: if each full authentication has an origin
/// of its own and a device accepts open counters alone, no counter is used twice under the keys of one of them
/// (RFC 4187 §5.1).
#[tactic(auto, using(crate::proofs::MachineLemmas::each_counter_once))]
pub fn no_counter_is_used_twice()
    ensures { EachCounterOnce }
{}

/// Whatever moves the sessions of a subscriber make side by side: if each identity that is given is new, no identity is
/// resumed twice (RFC 4187 §5.3).
#[tactic(auto, using(crate::proofs::NameLemmas::each_identity_once))]
pub fn no_identity_is_resumed_twice()
    ensures { EachIdentityOnce }
{}
