//! What the dialogues of both ends lead to: functions that do nothing, whose contracts are laws.
ghost use Rattle.laws_dialogues.specs.Downloads.{DownloadsCommute};
ghost use Rattle.laws_dialogues.specs.Laws.{LoginLeads, OperationLeads};
ghost use Rattle.laws_dialogues.specs.Operations.{EachLeadsAsRun, EachStaysSound};

/// Each turn of the login, whatever it is answered, leads on to where the client has entered and nothing is under way.
pub fn login_leads()
    ensures { LoginLeads }
{}

/// Every operation without a transfer that can be sent leads to the answer and the state of the direct run, refused or done, logged in
/// or not, and begun while the login goes on too; and it leaves a state from which the next does so again.
pub fn operations_lead()
    ensures each { EachLeadsAsRun }
    ensures turns { OperationLeads }
    ensures sound { EachStaysSound }
{}

/// What a client holds under a download does not depend on which comes first, a reply or an octet, the end or the break of the link.
pub fn downloads_commute()
    ensures { DownloadsCommute }
{}
