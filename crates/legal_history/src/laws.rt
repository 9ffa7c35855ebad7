// Laws of legal histories.
ghost use Rattle.std.specs.Prelude.{◌≡◌, List};
ghost use Rattle.rad_base.specs.declared.names.Nid.{Nid};
ghost use Rattle.rad_base.specs.declared.names.Rid.{Rid};
ghost use Rattle.keyring.specs.Contents.{Contents};
ghost use Rattle.repo_entries.specs.Items.{Item};
ghost use Rattle.repo_slice.specs.Good.{IsGood};
ghost use Rattle.legal_history.specs.Replays.{AreShort, messages_in, replay, replayed_state};
ghost use Rattle.legal_history.specs.Durable.{durable_part};
ghost use Rattle.legal_history.specs.Histories.{Legal};
ghost use Rattle.legal_history.specs.Laws.{DoubtIsNamed, EventsKeepLegal, StopsLeaveLegal};
ghost use Rattle.legal_history.specs.Advancing.{AdvanceAll, commits_of};

/// The durable part of a legal history is legal, has the same replay, and heard the same.
pub fn durable_parts_are_legal()
    ensures legal { (keyring : Contents) (items : List Item) → Legal keyring items
        → Legal keyring (durable_part items) }
    ensures replays { (rid : Rid) (items : List Item)
        → replay rid (durable_part items) ≡ replay rid items }
    ensures heard { (items : List Item) → messages_in (durable_part items) ≡ messages_in items }
{}

/// What a legal history makes of a repository is good.
pub fn slices_are_good()
    ensures { (keyring : Contents) (rid : Rid) (items : List Item) → Legal keyring items
        → IsGood (replay rid items).objects keyring (replayed_state rid items) }
{}

/// No object of what a legal history makes of a repository has more bytes than a put may give it.
pub fn contents_are_short()
    ensures { (keyring : Contents) (rid : Rid) (items : List Item) → Legal keyring items
        → AreShort (replay rid items).objects }
{}

/// In a legal history each commit of a remote advances from every earlier one, so no list of
/// fetches takes a remote back.
pub fn remotes_only_advance()
    ensures { (keyring : Contents) (rid : Rid) (node : Nid) (items : List Item)
        → Legal keyring items
        → AdvanceAll (replay rid items).objects (commits_of rid node items) }
{}

/// After any events from a legal history on, the history is legal, and so is each list that a stop
/// may leave. What is in doubt is what the last entry names of a call that left something, and no
/// durable entry stands behind it.
pub fn events_keep_histories_legal()
    ensures legal { EventsKeepLegal }
    ensures reopened { StopsLeaveLegal }
    ensures named { DoubtIsNamed }
{}
