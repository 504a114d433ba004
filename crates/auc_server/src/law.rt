//! What holds of every turn of a server.

ghost use Rattle.auc_server.specs.Ending.{EachTurnLeavesFewer, FirstLeavesSeven};
ghost use Rattle.auc_server.specs.Laws.{EachTurnFits, EachTurnKeepsOrChallenges, EachTurnKeepsOrResumes, OptionsStay, OrdinalsRise, SuccessNeedsARightMac};
ghost use Rattle.auc_server.specs.Moves.{EachTurnMakesOneMove};

/// A session ends in Success only in a turn in which a response with a right AT_MAC came, under the keys of the last
/// challenge or of the re-authentication (RFC 4187 §5.4, §6.3.4 and §10.15); an EAP-Success that somebody else sent changes nothing.
pub fn success_needs_a_right_mac()
    ensures { SuccessNeedsARightMac }
{}

/// The keys of the last challenge stay those of its vector and of the identity that was received last: once a challenge
/// is sent, no turn changes the identity (RFC 4187 §7). The keys of Success are those of the last challenge or of the
/// re-authentication.
pub fn each_turn_keeps_the_keys_of_its_inputs()
    ensures { EachTurnFits }
{}

/// A turn keeps the last challenge and the identity under it, or sends a new challenge with a number that the centre gave in
/// that turn for the subscriber that it was asked for.
pub fn each_turn_keeps_the_challenge_or_sends_one()
    ensures { EachTurnKeepsOrChallenges }
{}

/// A turn keeps the re-authentication and the identity under it, or takes a context up again: its counter is noted, the
/// request is sent, and the context leaves its home (RFC 4187 §5.3).
pub fn each_turn_keeps_the_re_authentication_or_resumes()
    ensures { EachTurnKeepsOrResumes }
{}

/// A turn makes at most one move of contexts at each home, for the session's method: it challenges with a number that was
/// drawn in the turn, takes the home's context up again and notes its counter, puts what the session leaves into the home,
/// or loses it (RFC 4187 §5.1 and §5.3). An identity that it gives is the name of an ordinal that it uses.
pub fn each_turn_makes_at_most_one_move()
    ensures { EachTurnMakesOneMove }
{}

/// The options of a server stay what they were when it started, in every turn and if it gives up.
pub fn no_turn_changes_the_options()
    ensures { OptionsStay }
{}

/// The ordinals of each home stay in a turn, or the next one or two are used; none is given back (RFC 4187 §4.1.1.7).
pub fn no_turn_gives_an_ordinal_back()
    ensures { OrdinalsRise }
{}

/// A server sends at most seven packets after its first request, repetitions aside: three requests for an identity
/// (RFC 4187 §4.1.4), a challenge, a second one after a synchronisation failure (TS 33.102 §6.3.5), a notification
/// (RFC 4187 §6.3) and the packet that ends the session. A turn that is ignored leaves no more packets to send, and any
/// other leaves fewer.
pub fn each_turn_leaves_fewer_packets()
    ensures first { FirstLeavesSeven }
    ensures turn { EachTurnLeavesFewer }
{}
